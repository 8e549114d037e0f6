// The theorems about nets of whole boxes on wires that are laid and taken away: each run is a run of the model, what shown means, and how a net comes to rest.
ghost use Rattle.netbytes.specs.Arriving.{FramesArrive};
ghost use Rattle.netbytes.specs.Trips.{BytesDeliver, HopDelivers};
ghost use Rattle.netmodel.specs.Fits.{FramesFit};
ghost use Rattle.netmodel.specs.Quiet.{QuietNet, ShownStays};
ghost use Rattle.netmodel.specs.Standing.{FewWords, RestIs, ShownMeans, Simulates, SimulatesOn, WiresJoin};
ghost use Rattle.netmodel.specs.Windows.{CanWindow, WindowsRest};

// Each run of boxes on wires that lose, repeat, delay and reorder anything, and are laid and taken away, is a run of the model, as long as no box would have to say a count of 2^63 or more; and while roads and boxes stay as they are it goes on by rule. A wire has heard only the box at its other end, and all that is ever sent fits into frames.
pub fn runs_on_wires()
    ensures runs { Simulates }
    ensures on { SimulatesOn }
    ensures wires { WiresJoin }
    ensures fits { FramesFit }
{}

// What a box has as shown by another, under the number that this has now, the other has, or a newer word; and it stays shown over every move while road, number and word do. A box along whose open roads all is shown and that need say nothing sends only hellos at its tick.
pub fn shown_on_wires()
    ensures means { ShownMeans }
    ensures stays { ShownStays }
    ensures quiet { QuietNet }
{}

// A net on wires is at rest just when the run of the model is, and from every state in which both ends of each road agree few words bring rest. Left alone there it comes to rest: of any windows one after the other all but as many as there can be news end at rest; and there is a net that has such a window.
pub fn rest_on_wires()
    ensures rest { RestIs }
    ensures few { FewWords }
    ensures left_alone { WindowsRest }
    ensures possible { CanWindow }
{}

// In bytes: those of a frame that is sent are read by any box as that frame and do what it does; and at rest those of a packet come out at a house of the box that it is for, over a way than which none is cheaper, in fewer steps than there are boxes, changed by its time to live and header sum alone, or it is refused where it was sent. At any moment of rest each box hands out what is for its houses, and sends what is for another's, while it lives, to a box that is nearer by what the wire costs.
pub fn bytes_on_wires()
    ensures frames { FramesArrive }
    ensures packets { BytesDeliver }
    ensures hop { HopDelivers }
{}
