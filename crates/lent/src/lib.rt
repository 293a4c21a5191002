// The tally as a caller is given it: in a record that the caller lends. The work is done by value; over the lent record
// stands one thin function, and a second one with plain parameters lends it a record of its own.
#![tactic(auto)]

ghost use Rattle.std.specs.Prelude.{◌≡◌};
ghost use Rattle.ask.specs.Tallies.{tally_answer};
ghost use Rattle.lent.specs.Lending.{lent_of};

use ask::tallies;
use ask::tallies::Tally;
use wedge::Wedge;

// What the caller has afterwards: the number, 0 where there is a tally, and the contents of the record.
#[derive(Clone, Copy)]
pub struct Lent {
    pub number: u32,
    pub tally: Tally,
}

// A refusal hands the old tally back.
fn tally_told(old: Tally, file: &[u8], cut: u32, t: u32, wedge: Wedge) -> Lent
    ensures { result ≡ lent_of old (tally_answer file.now cut t wedge) }
{
    match tallies::tally_of(file, cut, t, wedge) {
        Ok(tally) => Lent { number: 0, tally },
        Err(refusal) => Lent {
            number: refusal.number(),
            tally: old,
        },
    }
}

// Puts the answer into the lent record: a refusal leaves it as it was.
pub fn tally_into(t: &mut Tally, file: &[u8], cut: u32, data_type: u32, wedge: Wedge) -> u32
    ensures { (result ≡ (lent_of t.old (tally_answer file.now cut data_type wedge)).number)
        × (t.new ≡ (lent_of t.old (tally_answer file.now cut data_type wedge)).tally) }
{
    let a = tally_told(*t, file, cut, data_type, wedge);
    *t = a.tally;
    a.number
}

// Lends `tally_into` a record that holds `old`.
pub fn tally_by(old: Tally, file: &[u8], cut: u32, data_type: u32, wedge: Wedge) -> Lent
    ensures { result ≡ lent_of old (tally_answer file.now cut data_type wedge) }
{
    let mut t = old;
    let n = tally_into(&mut t, file, cut, data_type, wedge);
    Lent {
        number: n,
        tally: t,
    }
}
