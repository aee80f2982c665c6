//! The contents of a script's arena, pairs of a key and a value under pointers, and how they are printed.
use ord_machine::{Command, Reply};
use std::fmt;
use triple_ord::{BasePtr, OrdPair, P0, SimpleOrdArena};

/// A key with its value.
pub type Pair = OrdPair<i64, u64>;

/// A script's arena.
pub type PairArena<A> = SimpleOrdArena<P0, Pair, A>;

/// A command to such an arena.
pub type PairCommand = Command<P0, Pair>;

/// Its reply.
pub type PairReply<A> = Reply<P0, Pair, A>;

/// A pointer as a script writes it, such as `1.2`.
#[derive(Clone, Copy)]
pub struct ShownPointer(pub P0);

impl fmt::Display for ShownPointer {
    ghost use Rattle.std.specs.Prelude.{Some};
    ghost use Rattle.ord_script.specs.Text.{pointer_text};

    ghost output = { λ shown. Some (pointer_text shown.0) };

    fn fmt<W: fmt::Write>(&self, f: &mut fmt::Formatter<W>) -> fmt::Result {
        let index = self.0.inx();
        let generation = self.0.generation();
        write!(f, "{index}.{generation}")
    }
}

/// A pair as a script writes it, such as `-50:1`.
#[derive(Clone, Copy)]
pub struct ShownPair(pub Pair);

impl fmt::Display for ShownPair {
    ghost use Rattle.std.specs.Prelude.{Some};
    ghost use Rattle.ord_script.specs.Text.{pair_text};

    ghost output = { λ shown. Some (pair_text shown.0) };

    fn fmt<W: fmt::Write>(&self, f: &mut fmt::Formatter<W>) -> fmt::Result {
        let (key, value) = self.0.into_k_v();
        write!(f, "{key}:{value}")
    }
}

/// The previous pair after a space, if there was one.
#[derive(Clone, Copy)]
pub struct ShownBefore(pub Option<Pair>);

impl fmt::Display for ShownBefore {
    ghost use Rattle.std.specs.Prelude.{Some};
    ghost use Rattle.ord_script.specs.Text.{before_text};

    ghost output = { λ shown. Some (before_text shown.0) };

    fn fmt<W: fmt::Write>(&self, f: &mut fmt::Formatter<W>) -> fmt::Result {
        match self.0 {
            Some(before) => {
                let pair = ShownPair(before);
                write!(f, " {pair}")
            }
            None => Ok(()),
        }
    }
}

/// A neighbour's index, or `-` for none.
#[derive(Clone, Copy)]
pub struct ShownNeighbour(pub Option<u32>);

impl fmt::Display for ShownNeighbour {
    ghost use Rattle.std.specs.Prelude.{Some};
    ghost use Rattle.ord_script.specs.Text.{neighbour_text};

    ghost output = { λ shown. Some (neighbour_text shown.0) };

    fn fmt<W: fmt::Write>(&self, f: &mut fmt::Formatter<W>) -> fmt::Result {
        match self.0 {
            Some(index) => write!(f, "{index}"),
            None => write!(f, "-"),
        }
    }
}

/// A maximum, or `none`.
#[derive(Clone, Copy)]
pub struct ShownMaximum(pub Option<usize>);

impl fmt::Display for ShownMaximum {
    ghost use Rattle.std.specs.Prelude.{Some};
    ghost use Rattle.ord_script.specs.Text.{maximum_text};

    ghost output = { λ shown. Some (maximum_text shown.0) };

    fn fmt<W: fmt::Write>(&self, f: &mut fmt::Formatter<W>) -> fmt::Result {
        match self.0 {
            Some(maximum) => write!(f, "{maximum}"),
            None => write!(f, "none"),
        }
    }
}

/// ` overflow` if the generations overflowed, else nothing.
#[derive(Clone, Copy)]
pub struct ShownOverflow(pub bool);

impl fmt::Display for ShownOverflow {
    ghost use Rattle.std.specs.Prelude.{Some};
    ghost use Rattle.ord_script.specs.Text.{overflow_text};

    ghost output = { λ shown. Some (overflow_text shown.0) };

    fn fmt<W: fmt::Write>(&self, f: &mut fmt::Formatter<W>) -> fmt::Result {
        if self.0 {
            write!(f, " overflow")
        } else {
            Ok(())
        }
    }
}
