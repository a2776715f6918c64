// The sums of one window: its slots in a copy, its records' strides and spans added up from the window's begin.
// This crate is inner: its callers prove what it requires.
#![tactic(auto)]

ghost use Rattle.std.specs.Prelude.{◌≡◌};
ghost use Rattle.loc_window.specs.Window.{kind_of};

use loc_leaf::Kind;

pub mod blocks;
pub mod checkpoint;
pub mod plan;
pub mod records;
pub mod rows;
pub mod window;

// A window that is read: m records are looked at after `base` others, and its rows stand from place `first` on and before place `past`.
#[derive(Clone, Copy)]
pub struct PlannedWindow {
    pub base: u64,
    pub m: usize,
    pub first: usize,
    pub past: usize,
}

// What a walk over a window reads: the slots of the m records that follow `base` others, the rows, and which blocks are marked with the stamp.
// The window's rows stand before place `past`.
#[derive(Clone, Copy)]
pub struct LentWindow<'a> {
    pub kind: Kind,
    pub bytes: &'a [u8],
    pub m: usize,
    pub mark: &'a [u64],
    pub stamp: u64,
    pub rows: &'a [u8],
    pub past: usize,
    pub base: u64,
}

// What the records of so many blocks add up to, and how many rows are passed.
#[derive(Clone, Copy)]
pub struct Sums {
    pub strides: u64,
    pub spans: u64,
    pub row: usize,
    pub block: usize,
}

// The kind that an instance of a walk is made for.
pub(crate) fn kind_of<const PAIRED: bool>() -> Kind
    ensures { result ≡ kind_of PAIRED }
{
    if PAIRED { Kind::Paired } else { Kind::Single }
}
