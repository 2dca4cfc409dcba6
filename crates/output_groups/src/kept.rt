//! Groups that are lent from a list of them.

ghost use Rattle.std.specs.Prelude.{◌≡◌};

use crate::formed::Formed;
use std::marker::Model;

/// A group in the list where it stands. It is seen as the group.
#[derive(Drop)]
pub struct Kept<'b, 'a> {
    one: &'b Formed<'a>,
}

impl<'b, 'a> Model for Kept<'b, 'a> {
    ghost use Rattle.output_groups.specs.declared.formed.Formed.{Formed};

    ghost Value = { Formed };

    ghost view = { λ k. k.one.now };
}

impl<'b, 'a> Kept<'b, 'a> {
    /// The group, lent.
    pub fn new(one: &'b Formed<'a>) -> Kept<'b, 'a>
        ensures { result ≡ one.now }
    {
        Kept { one }
    }

    /// The group.
    pub fn one(&self) -> &'b Formed<'a>
        ensures { result.now ≡ self.now }
    {
        self.one
    }
}
