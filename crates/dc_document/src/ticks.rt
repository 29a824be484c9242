//! How close two words may follow one another on a line. The spacings are this project's own numbers for its two
//! speeds.
ghost use Rattle.std.specs.Prelude.{◌≡◌, ◌≤◌};
ghost use Rattle.dc_document.specs.Ticks.{output_gap, input_spacing, output_spacing};

use crate::parts::Speed;

/// The least time between two words on a bus, in microseconds: 350 at high speed, 2,450 at low.
pub fn input_spacing(speed: Speed) -> u32
    ensures { result ≡ input_spacing speed }
{
    match speed {
        Speed::High => 350,
        Speed::Low => 2450,
    }
}

/// The least time between two words of an output, in microseconds: 365 at high speed, 3,050 at low.
pub fn output_spacing(speed: Speed) -> u32
    ensures { result ≡ output_spacing speed }
{
    match speed {
        Speed::High => 365,
        Speed::Low => 3050,
    }
}

/// The least number of ticks between two sends of an output: as many as its spacing begins, for a tick of `tick_us`
/// microseconds, 1 or more.
pub fn output_gap(tick_us: u32, speed: Speed) -> u32
    requires { 1 ≤ tick_us }
    ensures { result ≡ output_gap tick_us speed }
{
    output_spacing(speed).div_ceil(tick_us)
}
