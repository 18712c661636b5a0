//! What the names of a text stand for, with the members of structs and the signatures found by hash.

ghost use Rattle.std.specs.Prelude.{◌≡◌, ◌<◌, ℕ, List, [], ◌∷◌, ◌++◌, Some, length, map, take, drop, slice_get, slice_set, IfOk, OnOk};
ghost use Rattle.c_kinds.specs.declared.types.Struct.{Struct as StructOf};
ghost use Rattle.c_kinds.specs.Layouts.{member_in, members_of};
ghost use Rattle.c_kinds.specs.Types.{signature_number};
ghost use Rattle.c_rules.specs.Calls.{is_some};
ghost use Rattle.c_rules.specs.Scopes as spec;
ghost use Rattle.c_rules.specs.Tags as tags;
ghost use Rattle.c_rules.specs.Texts as text;
ghost use Rattle.c_scopes.specs.Firsts.{first_place};
ghost use Rattle.c_scopes.specs.Keys as keys;
ghost use Rattle.c_scopes.specs.Tables.{with_signature};

use crate::NameSet;
use crate::first_places::FirstPlaces;
use crate::keys::signature_key;
use crate::meanings::put_at;
use c_arithmetic::{same_signature, signature_number};
use c_kinds::{Member, Signature, Struct, Structs};
use c_rules::{Function, Meaning, Names, Object, Objects, Pair, Pairs};
use kv_base::{Bytes, Copied, NoMemory, Sequence};
use std::alloc::Global;
use std::marker::Model;
use std::mem;

/// What the names of a text stand for so far.
#[derive(Drop)]
pub(crate) struct NameTable {
    alloc: Global,
    names: Names,
    members: Sequence<NameSet>,
    signatures: FirstPlaces,
}

impl Model for NameTable {
    ghost use Rattle.std.specs.Prelude.{◌≡◌, map};
    ghost use Rattle.c_rules.specs.declared.names.Names.{Names};
    ghost use Rattle.c_scopes.specs.Firsts.{HasFirsts};
    ghost use Rattle.c_scopes.specs.Keys.{signature_key};
    ghost use Rattle.c_scopes.specs.Tables.{member_names};

    ghost Value = { Names };

    ghost view = { λ table. table.names };

    ghost invariant = { λ table. (table.members ≡ member_names table.names.structs) × HasFirsts (map signature_key table.names.signatures) table.signatures };
}

/// What the names of an empty text stand for.
fn no_names(alloc: Global) -> Names
    ensures { result ≡ text.no_names }
{
    Names {
        meanings: Sequence::new(alloc),
        objects: Sequence::new(alloc),
        functions: Sequence::new(alloc),
        structs: Sequence::new(alloc),
        signatures: Sequence::new(alloc),
        broken: Sequence::new(alloc),
    }
}

/// A struct whose members follow.
fn no_members(alloc: Global) -> Struct
    ensures { result ≡ tags.new_members }
{
    Struct {
        members: Sequence::new(alloc),
        completed_at: None,
        cells: 0,
        has_const: false,
    }
}

impl NameTable {
    /// That of an empty text. It takes no memory.
    pub(crate) fn new(alloc: Global) -> NameTable
        ensures { result ≡ text.no_names }
    {
        NameTable {
            alloc,
            names: no_names(alloc),
            members: Sequence::new(alloc),
            signatures: FirstPlaces::new(alloc),
        }
    }

    pub(crate) fn names(&self) -> &Names
        ensures { result.now ≡ self.now }
    {
        &self.names
    }

    pub(crate) fn into_names(self) -> Names
        ensures { result ≡ self }
    {
        let NameTable {
            alloc: _,
            names,
            members: _,
            signatures: _,
        } = self;
        names
    }

    /// Rules are broken.
    pub(crate) fn note_all(&mut self, pairs: Pairs) -> Result<(), NoMemory>
        ensures { OnOk result (self.new ≡ record self.old { broken = self.old.broken ++ pairs }) }
    {
        self.names.broken.append(pairs)
    }

    /// A rule is broken.
    pub(crate) fn note(&mut self, pair: Pair) -> Result<(), NoMemory>
        ensures { OnOk result (self.new ≡ record self.old { broken = self.old.broken ++ pair ∷ [] }) }
    {
        self.names.broken.push(pair)
    }

    /// What stands at a token.
    pub(crate) fn mean(&mut self, at: usize, meaning: Meaning) -> Result<(), NoMemory>
        ensures { OnOk result (self.new ≡ record self.old { meanings = spec.put_at self.old.meanings at meaning }) }
    {
        put_at(&mut self.names.meanings, at, meaning)
    }

    /// Adds an object, which has the next number.
    pub(crate) fn add_object(&mut self, object: Object) -> Result<(), NoMemory>
        ensures { OnOk result (self.new ≡ record self.old { objects = self.old.objects ++ object ∷ [] }) }
    {
        self.names.objects.push(object)
    }

    /// Another object has the number.
    pub(crate) fn set_object(&mut self, number: usize, object: Object)
        requires { number < length self.old.objects }
        ensures { self.new ≡ record self.old { objects = slice_set self.old.objects number object } }
    {
        self.names.objects.set(number, object);
    }

    /// Adds a function, which has the next number.
    pub(crate) fn add_function(&mut self, function: Function) -> Result<(), NoMemory>
        ensures { OnOk result (self.new ≡ record self.old { functions = self.old.functions ++ function ∷ [] }) }
    {
        self.names.functions.push(function)
    }

    /// Another function has the number.
    pub(crate) fn set_function(&mut self, number: usize, function: Function)
        requires { number < length self.old.functions }
        ensures { self.new ≡ record self.old { functions = slice_set self.old.functions number function } }
    {
        self.names.functions.set(number, function);
    }
}

// ---- structs (C11 6.7.2.1)
impl NameTable {
    /// Adds a struct without members, which has the next number.
    pub(crate) fn add_struct(&mut self) -> Result<(), NoMemory>
        ensures { OnOk result (self.new ≡ record self.old { structs = self.old.structs ++ tags.new_members ∷ [] }) }
    {
        // Both are put back together at the end, so that a refusal leaves no struct.
        let mut structs = mem::replace(&mut self.names.structs, Sequence::new(self.alloc));
        let mut members = mem::replace(&mut self.members, Sequence::new(self.alloc));
        structs.push(no_members(self.alloc))?;
        members.push(NameSet::new(self.alloc))?;
        self.names.structs = structs;
        self.members = members;
        Ok(())
    }

    /// Whether the struct of this number has a member of this name.
    pub(crate) fn has_member(&self, number: usize, name: &[u8]) -> bool
        ensures { result ≡ is_some (member_in (members_of self.now.structs number) name.now) }
    {
        match self.members.get(number) {
            Some(names) => names.contains(name),
            None => false,
        }
    }

    /// The struct of this number has one more member, so many cells, and a `const` member or not. Without memory for it no
    /// struct is left.
    pub(crate) fn add_member(
        &mut self,
        number: usize,
        member: Member,
        cells: u64,
        has_const: bool,
    ) -> Result<(), NoMemory>
        requires { number < length self.old.structs }
        ensures { OnOk result ((s : StructOf) → slice_get self.old.structs number ≡ Some s → self.new ≡ record self.old { structs = slice_set self.old.structs number (record { members = s.members ++ member ∷ []; completed_at = s.completed_at; cells = cells; has_const = has_const }) }) }
    {
        // Both are put back together at the end, so that a refusal leaves no struct.
        let structs = mem::replace(&mut self.names.structs, Sequence::new(self.alloc));
        let members = mem::replace(&mut self.members, Sequence::new(self.alloc));
        let name = member.name.copy(self.alloc)?;
        let members = with_name(members, number, name)?;
        let structs = with_member(structs, number, member, cells, has_const)?;
        self.names.structs = structs;
        self.members = members;
        Ok(())
    }

    /// The struct of this number is complete after this token.
    pub(crate) fn complete_struct(&mut self, number: usize, at: usize)
        requires { number < length self.old.structs }
        ensures { (s : StructOf) → slice_get self.old.structs number ≡ Some s → self.new ≡ record self.old { structs = slice_set self.old.structs number (record s { completed_at = Some at }) } }
    {
        let structs = mem::replace(&mut self.names.structs, Sequence::new(self.alloc));
        self.names.structs = completed(structs, number, at);
    }
}

/// Structs, of which the one of this number has one more member, so many cells, and a `const` member or not.
fn with_member(
    structs: Structs,
    number: usize,
    member: Member,
    cells: u64,
    has_const: bool,
) -> Result<Structs, NoMemory>
    requires { number < length structs }
    ensures { IfOk result (λ made. (s : StructOf) → slice_get structs number ≡ Some s → made ≡ slice_set structs number (record { members = s.members ++ member ∷ []; completed_at = s.completed_at; cells = cells; has_const = has_const })) }
{
    let mut structs = structs.into_vec();
    let changed = &mut structs[number];
    changed.members.push(member)?;
    changed.cells = cells;
    changed.has_const = has_const;
    Ok(Sequence::from_vec(structs))
}

/// Structs, of which the one of this number is complete after this token.
fn completed(structs: Structs, number: usize, at: usize) -> Structs
    requires { number < length structs }
    ensures { (s : StructOf) → slice_get structs number ≡ Some s → result ≡ slice_set structs number (record s { completed_at = Some at }) }
{
    let mut structs = structs.into_vec();
    let changed = &mut structs[number];
    changed.completed_at = Some(at);
    Sequence::from_vec(structs)
}

/// Names, of which the list of this number has one more.
fn with_name(
    members: Sequence<NameSet>,
    number: usize,
    name: Bytes,
) -> Result<Sequence<NameSet>, NoMemory>
    requires { number < length members }
    ensures { IfOk result (λ made. (names : List (List ℕ)) → slice_get members number ≡ Some names → made ≡ slice_set members number (names ++ name ∷ [])) }
{
    let mut members = members.into_vec();
    let changed = &mut members[number];
    changed.push(name)?;
    Ok(Sequence::from_vec(members))
}

// ---- signatures (6.7.6.3)
impl NameTable {
    /// The number of a signature. Equal ones have one number; a new one has the next.
    pub(crate) fn number_signature(&mut self, signature: Signature) -> Result<usize, NoMemory>
        ensures table { OnOk result (self.new ≡ record self.old { signatures = with_signature self.old.signatures signature }) }
        ensures number { IfOk result (λ number. number ≡ signature_number self.old.signatures signature) }
    {
        let key = signature_key(self.alloc, &signature)?;
        let number = self.numbered(key.as_slice(), &signature);
        if number != self.names.signatures.len() {
            return Ok(number);
        }
        self.add_signature(key, signature)?;
        Ok(number)
    }

    /// The number of a signature with this key.
    fn numbered(&self, key: &[u64], signature: &Signature) -> usize
        requires { key.now ≡ keys.signature_key signature.now }
        ensures { result ≡ signature_number self.now.signatures signature.now }
    {
        match self.signatures.find(key) {
            Some(place) => number_at(self.names.signatures.as_slice(), place, signature),
            None => self.names.signatures.len(),
        }
    }

    /// Adds a signature with this key, which has the next number. Without memory for it no signature is left.
    fn add_signature(&mut self, key: Sequence<u64>, signature: Signature) -> Result<(), NoMemory>
        requires { key ≡ keys.signature_key signature }
        ensures { OnOk result (self.new ≡ record self.old { signatures = self.old.signatures ++ signature ∷ [] }) }
    {
        // Both are put back together at the end, so that a refusal leaves no signature.
        let mut known = mem::replace(&mut self.names.signatures, Sequence::new(self.alloc));
        let mut firsts = mem::replace(&mut self.signatures, FirstPlaces::new(self.alloc));
        firsts.add(key, known.len())?;
        known.push(signature)?;
        self.names.signatures = known;
        self.signatures = firsts;
        Ok(())
    }
}

/// The number of a signature whose key stands first at this place.
fn number_at(signatures: &[Signature], place: usize, signature: &Signature) -> usize
    ensures { Some place ≡ first_place (map keys.signature_key signatures.now) (keys.signature_key signature.now) → result ≡ signature_number signatures.now signature.now }
{
    match signatures.get(place) {
        Some(known) => {
            if same_signature(known, signature) {
                return place;
            }
            signature_number(signatures, signature)
        }
        None => signature_number(signatures, signature),
    }
}

// ---- parameters (6.9.1)
impl NameTable {
    /// The objects from this one on belong to the function of this number.
    pub(crate) fn own_objects(&mut self, number: usize, first: usize)
        ensures { self.new ≡ record self.old { objects = take first self.old.objects ++ map (text.owned_by number) (drop first self.old.objects) } }
    {
        let objects = mem::replace(&mut self.names.objects, Sequence::new(self.alloc));
        self.names.objects = owned(objects, number, first);
    }
}

/// Objects, of which those from this one on belong to the function of this number. It takes no memory.
fn owned(objects: Objects, number: usize, first: usize) -> Objects
    ensures { result ≡ take first objects ++ map (text.owned_by number) (drop first objects) }
{
    let mut objects = objects.into_vec();
    if first < objects.len() {
        own_all(&mut objects[first..], number);
    }
    Sequence::from_vec(objects)
}

/// Objects belong to the function of this number.
fn own_all(objects: &mut [Object], number: usize)
    ensures { objects.new ≡ map (text.owned_by number) objects.old }
{
    for object in objects.iter_mut() {
        object.function = Some(number);
    }
}
