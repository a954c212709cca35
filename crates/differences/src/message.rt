// One of the two messages that are compared, as `jwe::hold` leaves it. Beside it goes a table that begins with the parameters that are all
// recipients', and behind which each recipient's own are put in turn: it is no field, since no ghost field can stand beside a `&mut`.
ghost use Rattle.differences.specs.Inner.Holding.{Judges, judges_prop};

use jwe::{Holding, held};
use matching::Side;
use prelude::Place;

#[derive(Clone, Copy)]
pub(crate) struct Judged<'a> {
    pub message: &'a [u8],
    pub header: &'a [u8],
    pub holds: Holding,
    pub of: &'a [usize],
    pub own: &'a [u32],
    pub counts: &'a [usize],
    pub ghost judged: { Judges message.now header.now holds of.now own.now counts.now } by { judges_prop message.now header.now holds of.now own.now counts.now },
}

impl<'a> Judged<'a> {
    ghost use Rattle.std.specs.Prelude.{◌≡◌, ◌≤◌, ◌<◌, ◌*◌};
    ghost use Rattle.prelude.specs.Limits.{most_members};
    ghost use Rattle.headers.specs.Answers.{place_of};
    ghost use Rattle.jwe.specs.Judge.{held};
    ghost use Rattle.matching.specs.Inner.Places.{EachReads};
    ghost use Rattle.matching.specs.Inner.Sides.{texts, entries, common, HasPrints};
    ghost use Rattle.differences.specs.Differences.{compared, texts_of, parameters_of};
    ghost use Rattle.differences.specs.Inner.Holding.{Fronted, Gathered};

    // The place of a recipient's key.
    pub(crate) fn key(&self, n: usize) -> Place
        requires { n < self.now.holds.recipients }
        ensures { place_of result ≡ ((held self.now.message.now).share n).key }
    {
        held::key(self.of, n)
    }

    // What is compared of it before its recipients: the parameters that are all recipients'.
    pub(crate) fn front<'t>(&self, table: &'t [u32]) -> Side<'a, 't>
        requires { Fronted self.now.message.now self.now.holds.common table.now }
        ensures texts { texts result ≡ texts_of (compared self.now.message.now) }
        ensures entries { entries result ≡ (held self.now.message.now).common }
        ensures printed { HasPrints result }
        ensures reads { EachReads (texts result) (entries result) }
        ensures few { result.count ≤ 2 * most_members }
    {
        Side {
            header: self.header,
            message: self.message,
            table,
            common: self.holds.common,
            count: self.holds.common,
        }
    }

    // A recipient's own parameters put behind those; how many they are together.
    pub(crate) fn gather(&self, n: usize, table: &mut [u32]) -> usize
        requires recipient { n < self.now.holds.recipients }
        requires fronted { Fronted self.now.message.now self.now.holds.common table.old }
        ensures fronted { Fronted self.now.message.now self.now.holds.common table.new }
        ensures gathered { Gathered self.now.message.now n self.now.holds.common result table.new }
    {
        held::gather(self.own, self.counts, n, table, self.holds.common)
    }

    // What is compared of a recipient: those parameters.
    pub(crate) fn side<'t>(&self, n: usize, table: &'t [u32], count: usize) -> Side<'a, 't>
        requires { Gathered self.now.message.now n self.now.holds.common count table.now }
        ensures texts { texts result ≡ texts_of (compared self.now.message.now) }
        ensures common { common result ≡ (held self.now.message.now).common }
        ensures entries { entries result ≡ parameters_of (compared self.now.message.now) n }
        ensures printed { HasPrints result }
        ensures reads { EachReads (texts result) (entries result) }
        ensures few { result.count ≤ 3 * most_members }
    {
        Side {
            header: self.header,
            message: self.message,
            table,
            common: self.holds.common,
            count,
        }
    }
}
