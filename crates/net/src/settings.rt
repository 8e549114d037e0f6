// The settings of a box of which one wire costs otherwise.
ghost use Rattle.std.specs.Prelude.{◌≡◌, ℕ, ◌<◌};
ghost use Rattle.frames.specs.Ranges.{SettingsInRange};
ghost use Rattle.frames.specs.Writing.{bytes_of_settings};
ghost use Rattle.hello.specs.State.{links_of};
ghost use Rattle.messages.specs.Values.{at};
ghost use Rattle.model.specs.Flood.{row};

use hello::Links;
use messages::Settings;

// Settings as bytes.
pub(crate) fn bytes_of(settings: Settings) -> [u8; 19]
    ensures { result ≡ bytes_of_settings settings }
{
    let mut bytes = [0u8; 19];
    let _ = frames::write_settings(settings, &mut bytes);
    bytes
}

// The settings of a box with these wires, but for the cost of one.
pub(crate) fn with_cost(links: Links, wire: u8, cost: u16) -> Settings
    ensures boxes { result.boxes ≡ (links_of links).n }
    ensures me { result.me ≡ (links_of links).me }
    ensures costs { wire < 8 → (w : ℕ) → at result.costs w ≡ row wire cost (links_of links).cost w }
    ensures range { SettingsInRange result }
{
    Settings {
        boxes: links.boxes(),
        me: links.box_number(),
        costs: std::array::from_fn(|w| {
            if w == usize::from(wire) {
                cost
            } else {
                links.cost(w as u8)
            }
        }),
    }
}
