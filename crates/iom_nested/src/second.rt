ghost use Rattle.std.specs.Prelude.{◌≡◌, ◌<◌, ◌^◌, IsSome};
ghost use Rattle.iom_nested.specs.Stages.{got_behind, guest_got, second_shape_of, table_got};
ghost use Rattle.iom_nested.specs.Nested.{LeafReaches};

use crate::physical::Physical;
use iom_bits::{Features, Kind};
use iom_ddt::Context;
use iom_mem::Region;
use iom_walk::{Format, Got, Outcome, Shape, Words, walk};

/// A guest's memory as a source of words, through the second stage. Addresses are guest-physical, each translated for an implicit read, as
/// of a first-stage table's entry ("Process to translate an IOVA").
#[derive(Drop)]
pub struct Second<'a, M: Region> {
    ram: &'a M,
    format: Format,
    root: u64,
    ghost root_fits: { root < 2 ^ 44 },
}

impl<'a, M: Region> Second<'a, M> {
    /// Lends memory through the second stage of a context that has one: whose iohgatp.MODE isn't Bare.
    pub fn new(ram: &'a M, features: Features, context: &Context) -> Second<'a, M>
        requires staged { IsSome (second_shape_of context.now) }
        ensures { ⟦<Second<'a, M> as Words>⟧.at result ≡ table_got (M.memory ram.now) features context.now }
    {
        Second {
            ram,
            format: Format::of_user(second_shape(context).unwrap(), features),
            root: context.fields.gppn,
        }
    }
}

impl<M: Region> Words for Second<'_, M> {
    ghost at = { λ source. guest_got (M.memory source.ram.now) source.format source.root };

    fn word(&self, addr: u64) -> Got {
        let outcome = walk(
            &Physical { ram: self.ram },
            self.format,
            self.root,
            addr,
            Kind::Read,
        );
        got_behind(self.ram, addr, outcome)
    }
}

/// What a guest has at an address of its own, if the second stage's walk of that address, for a read, ends so.
pub fn got_behind<M: Region>(ram: &M, addr: u64, outcome: Outcome) -> Got
    requires { LeafReaches outcome }
    ensures { result ≡ got_behind (M.memory ram.now) addr outcome }
{
    match outcome {
        Outcome::Leaf(leaf) => Physical { ram }.word(leaf.frame * 4096 + addr % 4096),
        Outcome::Outside => Got::Outside,
        Outcome::Guest(_) | Outcome::Fault => Got::Guest,
    }
}

/// The shape of the second stage's tables, by iohgatp.MODE: 8 is Sv39x4, 9 is Sv48x4, 10 is Sv57x4; None if it is Bare, 0.
pub fn second_shape(context: &Context) -> Option<Shape>
    ensures { result ≡ second_shape_of context.now }
{
    match context.fields.gmode {
        0 => None,
        8 => Some(Shape::Sv39x4),
        9 => Some(Shape::Sv48x4),
        _ => Some(Shape::Sv57x4),
    }
}
