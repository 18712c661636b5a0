//! The living objects.

ghost use Rattle.std.specs.Prelude.{◌≡◌, ◌<◌, ◌-◌, ℕ, [], ◌∷◌, ◌++◌, length, take, drop, map, slice_get, Some, pos, ◌+ℤ◌, ◌*ℤ◌, IfOk, OnOk};
ghost use Rattle.c_values.specs.Pointing.{first_of, with_place, without_place};
ghost use Rattle.std.specs.Option.{option_copied};
ghost use Rattle.c_kinds.specs.Layouts.{flat};
ghost use Rattle.c_model.specs.Store as spec;

use crate::living::Living;
use crate::pointers::{moved_from, outside};
use c_model::{Cells, Outcome, Scalar};
use kv_base::{NoMemory, Sequence};
use std::alloc::Global;
use std::marker::Model;

/// The living objects, the youngest last. The object of a declaration is found by its number.
#[derive(Drop)]
pub struct Store {
    objects: Vec<Living>,
    places: Vec<Option<usize>>,
}

impl Model for Store {
    ghost use Rattle.std.specs.Prelude.{List};
    ghost use Rattle.c_model.specs.declared.values.Object.{Object};
    ghost use Rattle.c_values.specs.Pointing.{HasPlaces};

    ghost Value = { List Object };

    ghost view = { λ store. store.objects.items };

    ghost invariant = { λ store. HasPlaces store.objects.items store.places.items };
}

impl Store {
    /// No object. It takes no memory.
    pub fn new(alloc: Global) -> Store
        ensures { result ≡ [] }
    {
        Store {
            objects: Vec::new(alloc),
            places: Vec::new(alloc),
        }
    }

    /// How many objects live.
    pub fn len(&self) -> usize
        ensures { result ≡ length self.now }
    {
        self.objects.len()
    }

    /// The place of the first cell of a declaration's living object. Without one it is wild.
    pub fn place(&self, number: usize) -> Scalar
        ensures { result ≡ spec.place_of number self.now }
    {
        match self.places.get(number) {
            Some(Some(object)) => Scalar::Inside {
                object: *object,
                offset: 0,
            },
            Some(None) | None => Scalar::Wild,
        }
    }

    /// The object at a place, if it lives.
    fn find(&self, object: usize) -> Option<&Living>
        ensures { option_copied result ≡ slice_get self.now object }
    {
        self.objects.get(object)
    }

    /// The cells of an object, and none where it doesn't live.
    pub fn cells(&self, object: usize) -> &[Scalar]
        ensures { result.now ≡ spec.cells_in (slice_get self.now object) }
    {
        match self.find(object) {
            Some(living) => living.cells(),
            None => &[],
        }
    }

    /// What so many cells from a place on hold (C11 6.3.2.1p2).
    pub fn held(&self, alloc: Global, count: usize, place: Scalar) -> Result<Cells, NoMemory>
        ensures { IfOk result (λ made. made ≡ spec.held count place self.now) }
    {
        match place {
            Scalar::Inside { object, offset } => {
                let made = some_cells(alloc, self.cells(object), offset, count)?;
                Ok(made)
            }
            _ => Ok(Sequence::new(alloc)),
        }
    }

    /// A value replaces what a place holds (C11 6.5.16.1p2). Where the place is in no living object nothing changes.
    pub fn keep(&mut self, value: &[Scalar], place: Scalar)
        ensures { self.new ≡ spec.stored value.now place self.old }
    {
        if let Scalar::Inside { object, offset } = place {
            if let Some(living) = self.objects.get_mut(object) {
                living.write(offset, value);
            }
        }
    }

    /// A pointer that is moved by n elements of `size` cells: it stays in its object or points one past the last cell
    /// (C11 6.5.6p8).
    pub fn moved(&self, size: u64, n: i128, pointer: Scalar) -> Outcome
        ensures { result ≡ spec.moved size n pointer self.now }
    {
        match pointer {
            Scalar::Inside { object, offset } => {
                moved_in(self.find(object), size, n, object, offset)
            }
            _ => outside(),
        }
    }

    /// An object of a declaration begins to live, with these cells.
    pub fn bear(&mut self, number: usize, cells: Cells) -> Result<(), NoMemory>
        ensures { OnOk result (self.new ≡ self.old ++ record { number = number; cells = cells } ∷ []) }
    {
        make_room(&mut self.places, number)?;
        let object = self.objects.len();
        self.objects.push(Living::new(number, cells))?;
        enter(&mut self.places, number, object);
        Ok(())
    }

    /// The youngest object no longer lives.
    fn bury(&mut self)
        ensures { self.new ≡ take (length self.old - 1) self.old }
    {
        if let Some(dead) = self.objects.pop() {
            leave(&mut self.places, dead.number(), self.objects.len());
        }
    }

    /// The first `living` objects live on: pointers to others become wild (C11 6.2.4p2).
    pub fn outlive(&mut self, living: usize)
        ensures { self.new ≡ spec.survivors living self.old }
    {
        while self.objects.len() > living {
            self.bury();
        }
        outlive_all(&mut self.objects, living);
    }
}

/// A pointer that is moved by n elements of `size` cells in an object, if it lives.
fn moved_in(found: Option<&Living>, size: u64, n: i128, object: usize, offset: usize) -> Outcome
    ensures { result ≡ spec.moved_to object (pos offset +ℤ (n *ℤ pos size)) (option_copied found.entry) }
{
    match found {
        Some(living) => moved_from(size, n, living.cells().len(), object, offset),
        None => outside(),
    }
}

/// Some of the cells, from an offset on.
fn some_cells(
    alloc: Global,
    cells: &[Scalar],
    offset: usize,
    count: usize,
) -> Result<Cells, NoMemory>
    ensures { IfOk result (λ made. made ≡ take count (drop offset cells.now)) }
{
    let from = offset.min(cells.len());
    let rest = &cells[from..];
    let end = count.min(rest.len());
    let made = Sequence::from_slice(alloc, &rest[..end])?;
    Ok(made)
}

/// There is an entry for this number. The new ones are empty.
fn make_room(places: &mut Vec<Option<usize>>, number: usize) -> Result<(), NoMemory>
    ensures room { OnOk result (number < length places.new.items) }
    ensures same { (n : ℕ) → flat (slice_get places.new.items n) ≡ flat (slice_get places.old.items n) }
{
    while places.len() <= number {
        places.push(None)?;
    }
    Ok(())
}

/// The object at this place is that of its declaration, unless there is one already.
fn enter(places: &mut Vec<Option<usize>>, number: usize, object: usize)
    requires { number < length places.old.items }
    ensures { places.new.items ≡ with_place places.old.items number object }
{
    places[number] = first_of(places[number], object);
}

/// The place that is there, or else this one.
fn first_of(place: Option<usize>, object: usize) -> Option<usize>
    ensures { result ≡ first_of place (Some object) }
{
    match place {
        Some(place) => Some(place),
        None => Some(object),
    }
}

/// The object at this place is no longer that of its declaration.
fn leave(places: &mut Vec<Option<usize>>, number: usize, object: usize)
    ensures { places.new.items ≡ without_place places.old.items number object }
{
    if let Some(place) = places.get_mut(number) {
        if *place == Some(object) {
            *place = None;
        }
    }
}

/// Pointers to other objects than the first `living` become wild.
fn outlive_all(objects: &mut Vec<Living>, living: usize)
    ensures { objects.new.items ≡ map (spec.outlives living) objects.old.items }
{
    for object in objects.iter_mut() {
        object.outlive(living);
    }
}
