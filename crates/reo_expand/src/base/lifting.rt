//! A program as one of the second version.
ghost use Rattle.std.specs.Prelude.{◌≡◌, IfOk, map};
ghost use Rattle.reo_expand.specs.base.Lifted.{lifted, lifted_ref, lifted_form, lifted_item, lifted_connector, lifted_declaration};

use reo_trees::{
    Connector, ConnectorTwo, Declaration, DeclarationTwo, FormTwo, Item, ItemForm, ItemTwo,
    Program, ProgramTwo, Ref,
};
use reo_values::{Bytes, Copies, List, NoMemory};
use std::alloc::Global;

fn lift_name(alloc: Global, name: &Bytes) -> Result<Ref, NoMemory>
    ensures { IfOk result (λ r. r ≡ lifted_ref name.now) }
{
    let name = name.copy(alloc)?;
    Ok(Ref { name, place: None })
}

fn lift_names(alloc: Global, names: &[Bytes]) -> Result<List<Ref>, NoMemory>
    ensures { IfOk result (λ rs. rs ≡ map lifted_ref names.now) }
{
    let mut refs = List::new(alloc);
    for name in names {
        let next = lift_name(alloc, name)?;
        refs.push(next)?;
    }
    Ok(refs)
}

fn lift_form(alloc: Global, form: &ItemForm) -> Result<FormTwo, NoMemory>
    ensures { IfOk result (λ f. f ≡ lifted_form form.now) }
{
    match form {
        ItemForm::Node { name, term } => {
            let name = name.copy(alloc)?;
            let term = term.copied(alloc)?;
            Ok(FormTwo::Node {
                name,
                size: None,
                term,
            })
        }
        ItemForm::Joined {
            channel,
            first,
            second,
        } => {
            let channel = channel.copied(alloc)?;
            let first = lift_name(alloc, first)?;
            let second = lift_name(alloc, second)?;
            Ok(FormTwo::Joined {
                channel,
                first,
                second,
            })
        }
        ItemForm::Used { name, arguments } => {
            let name = name.copy(alloc)?;
            let arguments = lift_names(alloc, arguments.as_slice())?;
            Ok(FormTwo::Used {
                name,
                number: None,
                arguments,
            })
        }
    }
}

fn lift_item(alloc: Global, item: &Item) -> Result<ItemTwo, NoMemory>
    ensures { IfOk result (λ i. i ≡ lifted_item item.now) }
{
    let form = lift_form(alloc, &item.form)?;
    Ok(ItemTwo {
        line: item.line,
        form,
    })
}

fn lift_items(alloc: Global, items: &[Item]) -> Result<List<ItemTwo>, NoMemory>
    ensures { IfOk result (λ is. is ≡ map lifted_item items.now) }
{
    let mut lifts = List::new(alloc);
    for item in items {
        let next = lift_item(alloc, item)?;
        lifts.push(next)?;
    }
    Ok(lifts)
}

fn lift_connector(alloc: Global, connector: &Connector) -> Result<ConnectorTwo, NoMemory>
    ensures { IfOk result (λ c. c ≡ lifted_connector connector.now) }
{
    let name = connector.name.copy(alloc)?;
    let parameters = connector.parameters.copied(alloc)?;
    let items = lift_items(alloc, connector.items.as_slice())?;
    Ok(ConnectorTwo {
        line: connector.line,
        name,
        number: None,
        parameters,
        items,
    })
}

fn lift_declaration(alloc: Global, declaration: &Declaration) -> Result<DeclarationTwo, NoMemory>
    ensures { IfOk result (λ d. d ≡ lifted_declaration declaration.now) }
{
    match declaration {
        Declaration::Named { line, name, term } => {
            let name = name.copy(alloc)?;
            let term = term.copied(alloc)?;
            Ok(DeclarationTwo::Named {
                line: *line,
                name,
                term,
            })
        }
        Declaration::Made(connector) => {
            let connector = lift_connector(alloc, connector)?;
            Ok(DeclarationTwo::Made(connector))
        }
    }
}

/// The same declarations as a program of the second version. `NoMemory` means out of memory.
pub fn lift(alloc: Global, program: &Program) -> Result<ProgramTwo, NoMemory>
    ensures { IfOk result (λ p. p ≡ lifted program.now) }
{
    let mut declarations = List::new(alloc);
    for declaration in program.declarations.as_slice() {
        let next = lift_declaration(alloc, declaration)?;
        declarations.push(next)?;
    }
    Ok(ProgramTwo { declarations })
}
