//! Readings as a curve.
ghost use Rattle.std.specs.Prelude.{◌≡◌, ◌≢◌, ◌⊎◌, ℕ, List};
ghost use Rattle.dlms_web.specs.Text.{Puts};
ghost use Rattle.dlms_web.specs.declared.codes.TheConstants.{DONE, MEMORY, READINGS, SHORT};

use crate::codes::{MEMORY, READINGS};
use crate::putting::put;
use dlms_plot::{Form, PlotFault, plot_readings};
use dlms_room::{Room, RoomHeap};
use std::str;

/// The SVG of a readings file, or the code that says why it cannot be drawn.
fn plotted<'h>(heap: &'h RoomHeap, readings: &[u8]) -> Result<Vec<u8, &'h RoomHeap>, u32>
    ensures { (fault : ℕ) → result ≡ Err fault → (fault ≡ MEMORY) ⊎ (fault ≡ READINGS) }
{
    let Ok(readings) = str::from_utf8(readings) else {
        return Err(READINGS);
    };
    let mut curve = Vec::new(heap);
    match plot_readings(heap, readings, Form::Svg, &mut curve) {
        Ok(()) => Ok(curve),
        Err(PlotFault::Readings(_)) => Err(READINGS),
        Err(_) => Err(MEMORY),
    }
}

/// Draws the curve of a readings file as an SVG. `size` gets the number of its octets; if the buffer is too short, nothing is
/// written.
#[unsafe(no_mangle)]
pub extern "C" fn web_plot(room: Room, readings: &[u8], text: &mut [u8], size: &mut usize) -> u32
    ensures fault { (result ≡ MEMORY) ⊎ (result ≡ READINGS) → (size.new ≡ 0) × (text.new ≡ text.old) }
    ensures told { result ≢ MEMORY → result ≢ READINGS
        → (told : List ℕ) × Puts told text.old result size.new text.new }
{
    *size = 0;
    let Ok(heap) = RoomHeap::over(room) else {
        return MEMORY;
    };
    match plotted(&heap, readings) {
        Ok(curve) => put(curve.as_slice(), text, size),
        Err(fault) => fault,
    }
}
