//! Types by number, each type once.
ghost use Rattle.std.specs.Prelude.{◌≡◌, ◌<◌, ℕ, List, map, [], ◌∷◌, ◌++◌, length, slice_get, Some, None, IfOk, OnOk, MatchOption};
ghost use Rattle.reo_exprs.specs.Kinds.{kind_of};
ghost use Rattle.reo_rules.specs.Lists.{has_name};
ghost use Rattle.reo_rules.specs.Types.{is_same};
ghost use Rattle.reo_values.specs.declared.kindred.Kindred.{Kindred as AType};
ghost use Rattle.reo_rules_types.specs.Cells.{type_at, kindred_of, leaf, is_symbol, Fits, Keeps};

use crate::cell::TypeParts;
use indexmap::IndexMap;
use reo_rules::Names;
use reo_values::{Bytes, Kindred, List, NoMemory, Shared, Symbols};
use std::alloc::Global;
use std::marker::Model;

/// What is known of a type: the number of its kind, its symbols, and itself where it is no pair.
#[derive(Drop)]
pub(crate) struct Facts {
    pub(crate) kind: usize,
    pub(crate) symbols: Names,
    pub(crate) leaf: Kindred,
}

/// Types, each once: two are the same exactly where their numbers are equal.
#[derive(Drop)]
pub(crate) struct TypeStore {
    map: IndexMap<TypeParts, Facts>,
}

impl Model for TypeStore {
    ghost use Rattle.std.specs.Prelude.{List};
    ghost use Rattle.reo_values.specs.declared.kindred.Kindred.{Kindred as OfItems};
    ghost use Rattle.reo_values.specs.contracts.kindred.Kindred as kindred;
    ghost use Rattle.std.specs.Coded.{codes};

    ghost Value = { List OfItems };

    ghost coded = { Prim.hlevel (codes, kindred.the_row.coded) };

    ghost use Rattle.std.specs.HashMap.{keys};
    ghost use Rattle.reo_rules_types.specs.Cells.{kindreds_of};
    ghost use Rattle.reo_rules_types.specs.Table.{AreCells};

    ghost view = { λ t. kindreds_of (keys t.map) };

    ghost invariant = { λ t. AreCells (kindreds_of (keys t.map)) t.map.entries };
}

/// A copy of names.
fn copied(alloc: Global, names: &[Bytes]) -> Result<Vec<Vec<u8>>, NoMemory>
    ensures { IfOk result (λ made. map (λ v. v.items) made.items ≡ names.now) }
{
    let mut made = Vec::new(alloc);
    for name in names {
        let Ok(name) = Vec::from_slice(alloc, name.as_slice()) else {
            return Err(NoMemory);
        };
        let Ok(()) = made.push(name) else {
            return Err(NoMemory);
        };
    }
    Ok(made)
}

/// The symbols of a type of names, and none of another.
fn symbols_of(alloc: Global, cell: &TypeParts) -> Result<Names, NoMemory>
    ensures { IfOk result
        (λ symbols. (types : List AType) (name : List ℕ)
        → has_name symbols name ≡ is_symbol (kindred_of types cell.now) name) }
{
    let mut symbols = Names::new(alloc);
    if let TypeParts::Sym(names) = cell {
        for name in names {
            symbols.note(alloc, name.as_slice())?;
        }
    }
    Ok(symbols)
}

/// A copy of names. `NoMemory` means out of memory.
fn names_of(alloc: Global, names: &[Vec<u8>]) -> Result<List<Bytes>, NoMemory>
    ensures { IfOk result (λ made. made ≡ map (λ v. v.items) names.now) }
{
    let mut made = List::new(alloc);
    for name in names {
        made.push(Bytes::from_slice(alloc, name.as_slice())?)?;
    }
    Ok(made)
}

/// The type of a cell that is no pair, and `unit` for a pair.
fn leaf_of(alloc: Global, cell: &TypeParts) -> Result<Kindred, NoMemory>
    ensures { IfOk result
        (λ made. (types : List AType) → made ≡ leaf (kindred_of types cell.now)) }
{
    match cell {
        TypeParts::Unit => Ok(Kindred::Unit),
        TypeParts::Bool => Ok(Kindred::Bool),
        TypeParts::Int(low, high) => Ok(Kindred::Int(*low, *high)),
        TypeParts::Sym(names) => {
            let symbols = Symbols::new(alloc, names_of(alloc, names)?)?;
            Ok(Kindred::Sym(Shared::new(alloc, symbols)?))
        }
        TypeParts::Text(most) => Ok(Kindred::Text(*most)),
        TypeParts::Pair(_, _) => Ok(Kindred::Unit),
    }
}

impl TypeStore {
    /// The type `unit`, with the number 0. `NoMemory` means out of memory.
    pub(crate) fn new(alloc: Global) -> Result<Self, NoMemory>
        ensures { IfOk result (λ types. slice_get types 0 ≡ Some AType.Unit) }
    {
        let mut types = TypeStore {
            map: IndexMap::new(alloc),
        };
        types.keep(alloc, TypeParts::Unit, None)?;
        Ok(types)
    }

    /// The number of the type of a cell, which is added where it is not there. Its kind is there
    /// already, or it is its own kind.
    fn keep(
        &mut self,
        alloc: Global,
        cell: TypeParts,
        kind: Option<usize>,
    ) -> Result<usize, NoMemory>
        requires fits { Fits (length self.old) cell }
        requires kind { let of = kindred_of self.old cell in MatchOption kind (kind_of of ≡ of)
            (λ n. slice_get self.old n ≡ Some (kind_of of)) }
        ensures keeps { OnOk result (Keeps self.old self.new) }
        ensures number { IfOk result (λ n. slice_get self.new n ≡ Some (kindred_of self.old cell)) }
        ensures first { self.old ≡ [] → IfOk result (λ n. n ≡ 0) }
    {
        if let Some(number) = self.map.get_index_of(&cell) {
            return Ok(number);
        }
        let symbols = symbols_of(alloc, &cell)?;
        let leaf = leaf_of(alloc, &cell)?;
        let number = self.map.len();
        let facts = Facts {
            kind: kind.unwrap_or(number),
            symbols,
            leaf,
        };
        match self.map.insert(cell, facts) {
            Ok(_) => Ok(number),
            Err(_) => Err(NoMemory),
        }
    }

    /// The cell of a type's kind, where the type may have another kind than itself.
    fn kind_cell(&self, cell: &TypeParts) -> Option<TypeParts>
        requires { Fits (length self.now) cell.now }
        ensures { let of = kindred_of self.now cell.now in MatchOption result (kind_of of ≡ of)
            (λ kind. Fits (length self.now) kind × (kindred_of self.now kind ≡ kind_of of)) }
    {
        match cell {
            TypeParts::Unit | TypeParts::Bool | TypeParts::Sym(_) => None,
            TypeParts::Int(_, _) => Some(TypeParts::Int(0, 0)),
            TypeParts::Text(_) => Some(TypeParts::Text(0)),
            TypeParts::Pair(left, right) => Some(TypeParts::Pair(
                self.kind(*left),
                self.kind(*right),
            )),
        }
    }

    /// The number of the type of a cell, which is added where it is not there. All others keep
    /// theirs. `NoMemory` means out of memory.
    pub(crate) fn put(&mut self, alloc: Global, cell: TypeParts) -> Result<usize, NoMemory>
        requires { Fits (length self.old) cell }
        ensures keeps { OnOk result (Keeps self.old self.new) }
        ensures number { IfOk result (λ n. slice_get self.new n ≡ Some (kindred_of self.old cell)) }
    {
        match self.kind_cell(&cell) {
            None => self.keep(alloc, cell, None),
            Some(kind) => {
                let kind = self.keep(alloc, kind, None)?;
                self.keep(alloc, cell, Some(kind))
            }
        }
    }

    /// The number of the type of these names. `NoMemory` means out of memory.
    pub(crate) fn put_names(&mut self, alloc: Global, names: &[Bytes]) -> Result<usize, NoMemory>
        ensures keeps { OnOk result (Keeps self.old self.new) }
        ensures number { IfOk result (λ n. slice_get self.new n ≡ Some (AType.Sym names.now)) }
    {
        let names = copied(alloc, names)?;
        self.put(alloc, TypeParts::Sym(names))
    }

    /// The cell of a type.
    pub(crate) fn cell(&self, number: usize) -> &TypeParts
        requires { number < length self.now }
        ensures fits { Fits number result.now }
        ensures is { slice_get self.now number ≡ Some (kindred_of self.now result.now) }
    {
        match self.map.get_index(number) {
            Some((cell, _)) => cell,
            None => unreachable!(),
        }
    }

    /// A type that is no pair, and `unit` for a pair.
    pub(crate) fn leaf(&self, number: usize) -> &Kindred
        requires { number < length self.now }
        ensures { result.now ≡ leaf (type_at self.now number) }
    {
        match self.map.get_index(number) {
            Some((_, facts)) => &facts.leaf,
            None => unreachable!(),
        }
    }

    /// The number of a type's kind.
    pub(crate) fn kind(&self, number: usize) -> usize
        requires { number < length self.now }
        ensures { slice_get self.now result ≡ Some (kind_of (type_at self.now number)) }
    {
        match self.map.get_index(number) {
            Some((_, facts)) => facts.kind,
            None => unreachable!(),
        }
    }

    /// Whether the type has this symbol.
    pub(crate) fn has_symbol(&self, number: usize, name: &[u8]) -> bool
        requires { number < length self.now }
        ensures { result ≡ is_symbol (type_at self.now number) name.now }
    {
        match self.map.get_index(number) {
            Some((_, facts)) => facts.symbols.find(name).is_some(),
            None => unreachable!(),
        }
    }

    /// Whether two numbers are those of one type, where both are numbers of types.
    pub(crate) fn alike(&self, a: usize, b: usize) -> bool
        ensures { (k l : AType) → slice_get self.now a ≡ Some k → slice_get self.now b ≡ Some l
            → result ≡ is_same k l }
    {
        let _map = &self.map;
        a == b
    }

    /// Whether two types are the same.
    pub(crate) fn same(&self, a: usize, b: usize) -> bool
        requires a { a < length self.now }
        requires b { b < length self.now }
        ensures { result ≡ is_same (type_at self.now a) (type_at self.now b) }
    {
        self.alike(a, b)
    }
}
