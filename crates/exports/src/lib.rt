// Functions of the proved crates for plain Rust programs to link: benchmarks and comparisons.
//
// Nothing checks the declarations on the other side, so these are over numbers and slices alone, and each only hands on to proved functions. It knows the crates of bytes and
// of ways, and promises of each call its number and all that is left in lent memory, by their definitions.
#![tactic(auto)]

ghost use Rattle.std.specs.Prelude.{◌≡◌, ◌<◌, length};
ghost use Rattle.ways.specs.Numbers.{map_by};
ghost use Rattle.ways.specs.Refusals.{why_not};
ghost use Rattle.ways.specs.Table.{Found};

mod frame_bytes;
mod frame_content;
mod line_bytes;
mod packet_bytes;
mod settings_bytes;
mod sums;

pub use frame_bytes::router_frame;
pub use frame_content::{router_costs, router_numbers};
pub use line_bytes::router_line;
pub use packet_bytes::{
    router_echo_back, router_errand, router_hand_on, router_is_error, router_write_error,
};
pub use settings_bytes::router_settings;
pub use sums::{router_crc, router_sum_fits};
use ways::Words;

// Least ways: 0, or the number of the refusal.
#[unsafe(no_mangle)]
pub extern "C" fn router_least_ways<'x>(
    n: u8,
    me: u8,
    counts: &'x [u64],
    tags: &'x [u64],
    costs: &'x [[u16; 64]],
    dist: &mut [u32],
    next: &mut [u8],
) -> u8
    ensures verdict { result ≡ why_not n me (length counts.now) (length tags.now) (length costs.now) (length dist.old) (length next.old) }
    ensures found { result ≡ 0 → Found (map_by n counts.now tags.now costs.now) me dist.new next.new }
    ensures refused { 0 < result → (dist.new ≡ dist.old) × (next.new ≡ next.old) }
{
    match ways::least_ways(
        n,
        me,
        Words {
            counts,
            tags,
            costs,
        },
        dist,
        next,
    ) {
        Ok(_) => 0,
        Err(refusal) => u8::from(refusal),
    }
}
