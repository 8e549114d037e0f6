// The theorems about nets of boxes, each carried by the contract of a function, so that the gate asks for its proof.
//
// The statements and their proofs are in `model`, `linkmodel`, `netmodel` and `netbytes`; there is no code here to run. Start with `whole`: it is the promise of the whole.
#![tactic(auto)]

mod nets;
mod wires;

ghost use Rattle.model.specs.Boxes.{BoxIsCode, TakesSo, FallSo, TickSo, EveryBoxStands, BoxesDeliver};
ghost use Rattle.model.specs.Cases.{CasesHold};
ghost use Rattle.model.specs.Hops.{HopsTrue};
ghost use Rattle.model.specs.Promise.{Least, SameWords, OwnWords, Onward, ComesToRest, Ends, QuietIsRest, MapTrue, Main};
ghost use Rattle.model.specs.Roads.{RoadsAreAnInstance};
ghost use Rattle.model.specs.Settling.{OneTag, RestsByRule, Progress, EndsSooner, RestTest, Settles, SettlesAtLast};
ghost use Rattle.model.specs.Spread.{OneTagFor, SpokenFor, OnwardFor, EndsFor, QuietFor, SettledTest, ComesToRestFor, ProgressFor, SettlesFor, SettlesAtLastFor};
ghost use Rattle.model.specs.Ways.{ByAnyRank, ByAnyPolicy, HopPicks, AgreeOnClosed};

pub use nets::{bytes_on_wires, rest_on_wires, runs_on_wires, shown_on_wires};
pub use wires::{agreeing, hellos, relinking, shown, telling, whole_boxes};

// The promise of the whole: at rest every packet arrives over a cheapest way in fewer steps than there are boxes, or is refused where it was sent; few words bring rest from every state in which both ends of each road agree; however words go by rule, only so many are new to anybody, and when none is, that is rest.
pub fn whole()
    ensures { Main }
{}

// The distance that a map gives is the least cost of any way, of whatever length, and some way has it.
pub fn least()
    ensures { Least }
{}

// Packets arrive by any policy that picks a neighbour on a least way, and the lowest such neighbour is one; walks end by any rank that falls; maps that agree on a part that no road leaves have there the same ways.
pub fn forwarding()
    ensures policy { ByAnyPolicy }
    ensures lowest { HopPicks }
    ensures rank { ByAnyRank }
    ensures agree { AgreeOnClosed }
{}

// Nobody has of a box what it did not say: the same count and tag are the same word, one tag is one word of one box, and each word was so at some moment.
pub fn words_are_true()
    ensures same { SameWords }
    ensures tag { OneTag }
    ensures own { OwnWords }
{}

// What is known of a box never gets older, unless who knows it falls.
pub fn onward()
    ensures { Onward }
{}

// At rest each box's map gives the real distances, and the real next boxes from everything that can be reached.
pub fn maps_are_true()
    ensures distances { MapTrue }
    ensures hops { HopsTrue }
{}

// From every state in which both ends of each road agree few words bring rest, and nobody says one that is already so; while it isn't rest, two events by rule bring something new.
pub fn rest_is_near()
    ensures few { ComesToRest }
    ensures by_rule { RestsByRule }
    ensures progress { Progress }
{}

// However words go by rule, only so many are new to anybody; when none is, that is rest, and there is a test of it.
pub fn news_end()
    ensures ends { Ends }
    ensures sooner { EndsSooner }
    ensures quiet { QuietIsRest }
    ensures test { RestTest }
{}

// In every run by rule that is cut into fair stretches all but so many of them end at rest, and an endless one cannot fail to be at rest from some moment on.
pub fn fair_runs_settle()
    ensures counted { Settles }
    ensures at_last { SettlesAtLast }
{}

// All that is promised of how words spread holds whatever a word says, subject by subject.
pub fn flooding<P>()
    ensures tag { OneTagFor P }
    ensures spoken { SpokenFor P }
    ensures onward { OnwardFor P }
    ensures ends { EndsFor P }
    ensures quiet { QuietFor P }
    ensures test { SettledTest P }
    ensures rests { ComesToRestFor P }
    ensures progress { ProgressFor P }
    ensures counted { SettlesFor P }
    ensures at_last { SettlesAtLastFor P }
{}

// Words about roads are an instance of that: what is said is what roads cost, each box speaks for its own number, and a fall keeps nothing.
pub fn roads_are_an_instance()
    ensures { RoadsAreAnInstance }
{}

// The worked cases, as rows of one table.
pub fn worked_cases()
    ensures { CasesHold }
{}

// The calls of a box are the code that is asked for, event by event, and what must be shown is shown; taking a word, a fall and a tick do the events that they should.
pub fn calls_of_a_box()
    ensures code { BoxIsCode }
    ensures takes { TakesSo }
    ensures falls { FallSo }
    ensures ticks { TickSo }
{}

// Boxes driven by any events with fresh tags stand after these; and whatever boxes stand, at rest they hand every packet on to where it goes at the least cost, or refuse it where it was sent.
pub fn nets_of_boxes()
    ensures stand { EveryBoxStands }
    ensures deliver { BoxesDeliver }
{}
