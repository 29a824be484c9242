//! The text of tables whose buses are alike, and of their certificate: each bus has labels 203 and 204 and a router of its
//! own, and one output sends label 203 of the first. With one bus they are the small tables by other names.

use std::alloc::AllocError;

/// What all tables of a version begin with.
fn push_head(text: &mut String, policed: bool) -> Result<(), AllocError> {
    let version = if policed { 2 } else { 1 };
    write!(text, "version = {version}\ntick_us = 1000\n")?;
    for label in 203..205 {
        write!(
            text,
            "[[parameter]]\nlabel = \"{label}\"\nequipment = \"001\"\nformat = \"bnr\"\nmin_us = 10000\nmax_us = 20000\n"
        )?;
    }
    Ok(())
}

/// Adds the bus of this number.
fn push_bus(text: &mut String, policed: bool, bus: u32) -> Result<(), AllocError> {
    write!(
        text,
        "[[bus]]\nname = \"B{bus}\"\nspeed = \"high\"\nqueue = 2\n"
    )?;
    if policed {
        text.push_str("police = true\n")?;
    }
    for label in 203..205 {
        write!(
            text,
            "[[bus.stream]]\nname = \"B{bus}-{label}\"\nlabel = \"{label}\"\nequipment = \"001\"\nsdi = \"any\"\n"
        )?;
        if policed {
            text.push_str("jitter_us = 0\n")?;
        }
    }
    Ok(())
}

/// Adds tables of so many buses to a text: of version 2 with policed buses, or of version 1.
///
/// # Errors
/// Out of memory.
pub fn push_equal_tables(text: &mut String, buses: u32, policed: bool) -> Result<(), AllocError> {
    push_head(text, policed)?;
    for bus in 0..buses {
        push_bus(text, policed, bus)?;
    }
    for bus in 0..buses {
        write!(
            text,
            "[[router]]\nname = \"R{bus}\"\nsteps = 1\nwithin = 1\nmost = 2\nvisits = [\"B{bus}\"]\n"
        )?;
    }
    text.push_str(
        "[[output]]\nname = \"O\"\nspeed = \"high\"\nsteps = 1\nwithin = 2\nframe = 15\n",
    )?;
    text.push_str(
        "[[output.label]]\nname = \"x\"\nlabel = \"203\"\nequipment = \"001\"\nsdi = 0\nsources = [\"B0-203\"]\nstale = 22\nage = 30\noffsets = [0]\n",
    )
}

/// Adds their certificate.
///
/// # Errors
/// Out of memory.
pub fn push_equal_certificate(text: &mut String, buses: u32) -> Result<(), AllocError> {
    text.push_str(
        "{\"version\":1,\"outputs\":[{\"output\":\"O\",\"window\":3,\"delay\":2}],\"labels\":[{\"label\":\"x\",\"age\":24}],\"inputs\":[",
    )?;
    for bus in 0..buses {
        let comma = if bus == 0 { "" } else { "," };
        write!(
            text,
            "{comma}{{\"bus\":\"B{bus}\",\"window\":3,\"backlog\":2,\"delay\":2}}"
        )?;
    }
    text.push_str("]}")
}
