//! Flat names.
ghost use Rattle.std.specs.Prelude.{◌≡◌, ◌<◌, ◌^◌, ◌++◌, List, IfOk, OnOk, ℕ, length, codes, map};
ghost use Rattle.std.specs.Fmt.{decimal};
ghost use Rattle.reo_trees.specs.declared.programs.Parameter.{Parameter as AParameter};
ghost use Rattle.reo_rules.specs.Scopes.{parameter_names};
ghost use Rattle.reo_flat.specs.Unfolding.{flat_name};

use reo_rules::Names;
use reo_values::{Bytes, List, NoMemory, append_number};
use std::alloc::Global;

/// What a use of a connector adds to the path of the connector in which it stands.
pub(crate) fn append_use(
    alloc: Global,
    path: &mut Bytes,
    name: &Bytes,
    number: usize,
) -> Result<(), NoMemory>
    requires { number < 2 ^ 63 }
    ensures { OnOk result (path.new
        ≡ path.old ++ name.now ++ codes "@" ++ decimal number ++ codes ".") }
{
    path.append(name.as_slice())?;
    path.push(b'@')?;
    append_number(alloc, path, number as i64)?;
    path.push(b'.')
}

/// The flat name of a node that is declared where this path leads.
pub(crate) fn node_name(alloc: Global, path: &Bytes, name: &Bytes) -> Result<Bytes, NoMemory>
    ensures { IfOk result (λ made. made ≡ path.now ++ name.now) }
{
    let mut made = path.copy(alloc)?;
    made.append(name.as_slice())?;
    Ok(made)
}

/// The flat name of a name of a connector, of whose names the first so many are parameters.
pub(crate) fn flat_name(
    alloc: Global,
    names: &Names,
    parameters: usize,
    arguments: &[Bytes],
    path: &Bytes,
    name: &Bytes,
) -> Result<Bytes, NoMemory>
    ensures { (ps : List AParameter) (rest : List (List ℕ)) → names.now
        ≡ parameter_names ps ++ rest → length ps ≡ parameters → IfOk result (λ made. made
        ≡ flat_name path.now ps arguments.now name.now) }
{
    match names.find(name.as_slice()) {
        Some(number) => {
            if number < parameters && number < arguments.len() {
                arguments[number].copy(alloc)
            } else {
                node_name(alloc, path, name)
            }
        }
        None => node_name(alloc, path, name),
    }
}

/// The flat names of names of a connector.
pub(crate) fn flat_names(
    alloc: Global,
    names: &Names,
    parameters: usize,
    arguments: &[Bytes],
    path: &Bytes,
    given: &[Bytes],
) -> Result<List<Bytes>, NoMemory>
    ensures { (ps : List AParameter) (rest : List (List ℕ)) → names.now
        ≡ parameter_names ps ++ rest → length ps ≡ parameters → IfOk result (λ made. made ≡ map
        (flat_name path.now ps arguments.now) given.now) }
{
    let mut made = List::new(alloc);
    for name in given {
        made.push(flat_name(alloc, names, parameters, arguments, path, name)?)?;
    }
    Ok(made)
}
