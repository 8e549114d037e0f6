// The theorems about boxes on wires: hellos, which roads are open, and telling over roads that lose.
ghost use Rattle.linkmodel.specs.Agreeing.{BothOpen, BothOpenSooner, NeitherOpen, CanAgree};
ghost use Rattle.linkmodel.specs.Calls.{HelloSo, CostsSo, FallsSo, TicksSo, TellsSo, WordsSo, AnswersSo, SeensSo};
ghost use Rattle.linkmodel.specs.Hellos.{OpenJustWhen, OpenMeans};
ghost use Rattle.linkmodel.specs.Relinked.{RelinkSo, RelinkOneByOne};
ghost use Rattle.linkmodel.specs.Telling.{SeenShows, WordShows, TakenShows, NothingToTell, OnlyHellos, QuietTick, NothingStarves, AllTold, RoundTrip};

// A wire is open just when the last hello taken on it fits; and if a has its road to e open under a drawn number of e, then e, in that life, heard a in this life of a, whatever was lost, repeated, late or out of order.
pub fn hellos()
    ensures just { OpenJustWhen }
    ensures means { OpenMeans }
{}

// If of any three hellos in a row one arrives, each within two ticks, both ends hold the wire open after 104 ticks, or 64 if no third box held it, and go on to; if one direction carries none, neither end does after 83.
pub fn agreeing()
    ensures both { BothOpen }
    ensures sooner { BothOpenSooner }
    ensures neither { NeitherOpen }
    ensures possible { CanAgree }
{}

// Changed links do to a box just the events of its roads, one by one.
pub fn relinking()
    ensures stands { RelinkSo }
    ensures steps { RelinkOneByOne }
{}

// Over an open road a seen of the word that a box has, and a word that the box has after the packet, wherever it is in there, show that who sent it has it; and a word of another box that isn't older is what the box has then.
pub fn shown()
    ensures seen { SeenShows }
    ensures word { WordShows }
    ensures taken { TakenShows }
{}

// Over a road that stays open nothing starves, four words at a time, lowest first; and where all is shown only hellos go.
pub fn telling()
    ensures round { RoundTrip }
    ensures starves { NothingStarves }
    ensures told { AllTold }
    ensures nothing { NothingToTell }
    ensures only { OnlyHellos }
    ensures tick { QuietTick }
{}

// Each thing that a whole box does is a list of the model's events: hellos, new costs, falls, ticks and telling, packets of words and their answers, and packets of seens.
pub fn whole_boxes()
    ensures hello { HelloSo }
    ensures costs { CostsSo }
    ensures falls { FallsSo }
    ensures ticks { TicksSo }
    ensures tells { TellsSo }
    ensures words { WordsSo }
    ensures answers { AnswersSo }
    ensures seens { SeensSo }
{}
