//! The bodies of data items.
ghost use Rattle.std.specs.Prelude.{◌≡◌, option_map, slice_get, drop, length};
ghost use Rattle.file_lab.specs.Bodies.{data_bodies, first_of};

use chaos_lab::KeptItem;
use chaos_packet::Kind;
use std::marker::Model;

/// The bodies of the data items among some items, lent in their order. A contract sees the list of
/// the bodies.
#[derive(Drop)]
pub struct Bodies<'a> {
    items: &'a [KeptItem],
}

impl<'a> Model for Bodies<'a> {
    ghost use Rattle.std.specs.Prelude.{ℕ, List};
    ghost use Rattle.file_lab.specs.Bodies.{data_bodies};

    ghost Value = { List (List ℕ) };

    ghost view = { λ b. data_bodies b.items.now };
}

impl<'a> Bodies<'a> {
    pub(crate) fn new(items: &'a [KeptItem]) -> Self
        ensures { result ≡ data_bodies items.now }
    {
        Bodies { items }
    }

    /// Takes the next body out.
    pub fn next(&mut self) -> Option<&'a [u8]>
        // The bodies are lent one after another, in order, and then none.
        ensures body { option_map (λ b. b.now) result ≡ slice_get self.old 0 }
        ensures rest { self.new ≡ drop 1 self.old }
    {
        match first_data(self.items) {
            Some((body, rest)) => {
                self.items = rest;
                Some(body)
            }
            None => {
                self.items = &[];
                None
            }
        }
    }
}

/// The body of the first data item, and the items behind it.
fn first_data(items: &[KeptItem]) -> Option<(&[u8], &[KeptItem])>
    ensures { option_map (λ p. (p.0.now, data_bodies p.1.now)) result
        ≡ first_of (data_bodies items.now) }
{
    let mut left = items;
    while let [item, rest @ ..] = left {
        if item.op().kind() == Kind::Data {
            return Some((item.bytes(), rest));
        }
        left = rest;
    }
    None
}
