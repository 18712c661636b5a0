//! One living object.

ghost use Rattle.std.specs.Prelude.{◌≡◌, false, map, slice_get, slice_set, Some};
ghost use Rattle.c_model.specs.declared.values.Scalar.{Scalar};
ghost use Rattle.c_model.specs.Store as spec;
ghost use Rattle.c_values.specs.Pointing.{points, AreNoPointers};

use c_model::{Cells, Scalar};
use std::marker::Model;

/// A living object, and whether one of its cells may point into an object.
#[derive(Drop)]
pub(crate) struct Living {
    number: usize,
    cells: Cells,
    may_point: bool,
}

impl Model for Living {
    ghost use Rattle.std.specs.Prelude.{◌≡◌, false};
    ghost use Rattle.c_model.specs.declared.values.Object.{Object};
    ghost use Rattle.c_values.specs.Pointing.{AreNoPointers};

    ghost Value = { Object };

    ghost view = { λ living. record { number = living.number; cells = living.cells } };

    ghost invariant = { λ living. living.may_point ≡ false → AreNoPointers living.cells };
}

impl Living {
    /// An object of this declaration, with these cells.
    pub(crate) fn new(number: usize, cells: Cells) -> Living
        ensures { result ≡ record { number = number; cells = cells } }
    {
        let may_point = points_somewhere(cells.as_slice());
        Living {
            number,
            cells,
            may_point,
        }
    }

    /// The number of its declaration.
    pub(crate) fn number(&self) -> usize
        ensures { result ≡ self.now.number }
    {
        self.number
    }

    /// What its cells hold.
    pub(crate) fn cells(&self) -> &[Scalar]
        ensures { result.now ≡ self.now.cells }
    {
        self.cells.as_slice()
    }

    /// A value in its cells from this one on. What reaches past the last cell is dropped.
    pub(crate) fn write(&mut self, offset: usize, value: &[Scalar])
        ensures { self.new ≡ spec.object_with offset value.now self.old }
    {
        self.may_point |= points_somewhere(value);
        write_cells(&mut self.cells, offset, value);
    }

    /// The first `living` objects live on: pointers to others become wild.
    pub(crate) fn outlive(&mut self, living: usize)
        ensures { self.new ≡ spec.outlives living self.old }
    {
        if self.may_point {
            outlive_cells(living, &mut self.cells);
        }
    }
}

/// Whether a scalar points into an object.
fn points_inside(scalar: Scalar) -> bool
    ensures { result ≡ points scalar }
{
    match scalar {
        Scalar::Inside { .. } => true,
        _ => false,
    }
}

/// Whether a cell of a value points into an object.
fn points_somewhere(value: &[Scalar]) -> bool
    ensures { result ≡ false → AreNoPointers value.now }
{
    for scalar in value {
        if points_inside(*scalar) {
            return true;
        }
    }
    false
}

/// A value in cells from this one on, as far as there are any.
fn write_cells(cells: &mut Cells, offset: usize, value: &[Scalar])
    ensures { cells.new ≡ spec.written offset value.now cells.old }
{
    let end = cells.len();
    let mut place = offset;
    for scalar in value {
        if place >= end {
            return;
        }
        cells.set(place, *scalar);
        place += 1;
    }
}

/// A pointer to an object that no longer lives is wild (C11 6.2.4p2); the first `living` objects live on.
fn outlived(living: usize, scalar: Scalar) -> Scalar
    ensures { result ≡ spec.outlived living scalar }
{
    match scalar {
        Scalar::Inside { object, .. } if object >= living => Scalar::Wild,
        _ => scalar,
    }
}

/// The first `living` objects live on: pointers to others become wild (C11 6.2.4p2).
pub fn outlive_cells(living: usize, cells: &mut Cells)
    ensures { cells.new ≡ map (spec.outlived living) cells.old }
{
    for at in 0..cells.len() {
        outlive_cell(living, cells, at);
    }
}

/// One cell of them.
fn outlive_cell(living: usize, cells: &mut Cells, at: usize)
    ensures { (s : Scalar) → slice_get cells.old at ≡ Some s → cells.new ≡ slice_set cells.old at (spec.outlived living s) }
{
    match cells.get(at).copied() {
        Some(scalar) => cells.set(at, outlived(living, scalar)),
        None => {}
    }
}
