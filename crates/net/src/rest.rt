// Whether a net of boxes is at rest.
ghost use Rattle.std.specs.Prelude.{◌≡◌, ◌<◌, ◌≤◌, true, length};
ghost use Rattle.model.specs.Promise.{Rest, all_below};
ghost use Rattle.net.specs.Nets.{Numbered, agrees_with, alike_below, calm_at, world_of};
ghost use Rattle.net.specs.Resting.{FewWordsRest, LeftAlone, RestAfter, RestSo};
ghost use Rattle.node.specs.State.{whole_of};
ghost use Rattle.router.specs.State.{box_of};

use node::Node;
use router::Router;

// Whether two boxes have the same word of every box below `n`.
fn alike(n: u8, one: &Router, other: &Router) -> bool
    ensures { result ≡ alike_below n (box_of one.now) (box_of other.now) }
{
    (0..n).all(|i| one.id_of(i).is_same_as(other.id_of(i)))
}

// Whether two boxes, of these numbers, agree: both hold the road between them open and have the same words, or the first doesn't hold it open.
fn agree(n: u8, one: &Router, a: u8, other: &Node, e: u8) -> bool
    ensures { result ≡ agrees_with n (box_of one.now) a (whole_of other.now).box e }
{
    if !one.is_open(e) {
        return true;
    }
    let other = other.router();
    other.is_open(a) && alike(n, one, &other)
}

// Whether a box knows how many there are and which it is, what it has said of itself is so, and it agrees with every other.
fn calm(boxes: &[Node], a: u8) -> bool
    requires { (a < length boxes.now) × (length boxes.now ≤ 64) }
    ensures { result ≡ calm_at boxes.now a }
{
    let one = boxes[a as usize].router();
    let n = boxes.len() as u8;
    one.boxes() == n
        && one.box_number() == a
        && !one.owes()
        && (0..n)
            .zip(boxes)
            .all(|(e, other)| agree(n, &one, a, other, e))
}

// Whether these boxes, each with its place as its number, are at rest: whatever has been said is so, and whoever share a road have the same word of every box.
//
// So it is after every run of the model's net that leads to them. If both ends of each road agree there, few words bring rest, and left alone the net comes to rest.
pub fn at_rest(boxes: &[Node]) -> bool
    ensures test { length boxes.now ≤ 64 → result ≡ all_below (length boxes.now) (calm_at boxes.now) }
    ensures sound { result ≡ true → Numbered boxes.now × Rest (world_of boxes.now) }
    ensures complete { length boxes.now ≤ 64 → Numbered boxes.now → Rest (world_of boxes.now) → result ≡ true }
    ensures after { RestAfter boxes.now result }
    ensures so { RestSo boxes.now result }
    ensures few { FewWordsRest boxes.now }
    ensures left_alone { LeftAlone boxes.now }
{
    if boxes.len() > 64 {
        return false;
    }
    let n = boxes.len() as u8;
    (0..n).all(|a| calm(boxes, a))
}
