// What a file is made of.
ghost use Rattle.std.specs.Prelude.{◌≡◌, IfOk, length};
ghost use Rattle.me_generate.specs.Stated as spec;

use crate::avi::{avi_head, avi_middle};
use crate::mov::{movie_head, movie_middle};
use crate::rows::Row;
use crate::wave::wave_head;
use me_bytes::NoMemory;
use part_tree::{Bytes, Kind};
use std::alloc::Global;

/// The greatest number from which a file of a kind is made; 0 where none is.
pub fn limit_of(kind: Kind) -> u64
    ensures { result ≡ spec.limit_of kind }
{
    match kind {
        Kind::Wave => 14_000,
        Kind::Avi | Kind::Mov => 1_000_000,
        Kind::Rf64 | Kind::Bw64 => 0,
    }
}

/// Bytes, a row for each number, bytes, and so many rows more.
#[derive(Debug, Drop)]
pub(crate) struct Shape {
    pub(crate) head: Bytes,
    pub(crate) first: Row,
    pub(crate) middle: Bytes,
    pub(crate) last: Row,
    pub(crate) lasts: u64,
}

fn wave_shape(alloc: Global, n: u64) -> Result<Shape, NoMemory>
    requires { spec.IsMade Kind.Wave n }
    ensures { IfOk result (λ shape. shape ≡ spec.wave_shape n) }
{
    let head = wave_head(alloc, n)?;
    Ok(Shape {
        head,
        first: Row::Second,
        middle: Bytes::of(Vec::new(alloc)),
        last: Row::Second,
        lasts: 0,
    })
}

fn avi_shape(alloc: Global, n: u64) -> Result<Shape, NoMemory>
    requires { spec.IsMade Kind.Avi n }
    ensures { IfOk result (λ shape. shape ≡ spec.avi_shape n) }
{
    let head = avi_head(alloc, n)?;
    let middle = avi_middle(alloc, n)?;
    Ok(Shape {
        head,
        first: Row::Picture,
        middle,
        last: Row::Entry,
        lasts: n,
    })
}

fn movie_shape(alloc: Global, n: u64) -> Result<Shape, NoMemory>
    requires { spec.IsMade Kind.Mov n }
    ensures { IfOk result (λ shape. shape ≡ spec.movie_shape n) }
{
    let head = movie_head(alloc, n)?;
    let middle = movie_middle(alloc, n)?;
    Ok(Shape {
        head,
        first: Row::Place(180 + 4 * n),
        middle,
        last: Row::Sample,
        lasts: n,
    })
}

/// What the file of a number is made of. No number is allowed for the kinds of which none is made.
pub(crate) fn shape_of(alloc: Global, kind: Kind, n: u64) -> Result<Shape, NoMemory>
    requires { spec.IsMade kind n }
    ensures { IfOk result (λ shape. shape ≡ spec.shape_of kind n) }
{
    match kind {
        Kind::Wave => wave_shape(alloc, n),
        Kind::Avi => avi_shape(alloc, n),
        Kind::Mov | Kind::Rf64 | Kind::Bw64 => movie_shape(alloc, n),
    }
}

/// The length of the file of a number.
pub(crate) fn len_of(kind: Kind, n: u64) -> u64
    requires { spec.IsMade kind n }
    ensures { result ≡ length (spec.stated kind n) }
{
    match kind {
        Kind::Wave => 1032 + 288_000 * n,
        Kind::Avi => 232 + 32 * n,
        Kind::Mov | Kind::Rf64 | Kind::Bw64 => 180 + 12 * n,
    }
}
