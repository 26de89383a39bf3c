//! What a block says, written behind other bytes.

ghost use Rattle.std.specs.Prelude.{◌≡◌, ◌++◌, OnOk};
ghost use Rattle.std.specs.List.{flat_map, AllByRecursion};
ghost use Rattle.files_reports.specs.Said.{IsEvent};
ghost use Rattle.files_reports.specs.Spelling.{event_bytes};
ghost use Rattle.files_logs.specs.Items.{items_bytes, IsItem, items_for};

use crate::layout::TOLD_KIND;
use files_reports::Memory;
use files_reports::writing::append_event;
use node_journal::Journal;

/// Appends that these events came, and if so, that the run is finished.
#[tactic(auto, using(crate::proofs::Spelled::said_told, crate::proofs::Spelled::said_untold, crate::proofs::Spelled::are_items))]
pub fn append_said(bytes: &mut Vec<u8>, events: &Journal, is_told: bool) -> Result<(), Memory>
    ensures written { OnOk result (bytes.new.items ≡ bytes.old.items ++ items_bytes (items_for events.now is_told)) }
    ensures are_items { OnOk result (AllByRecursion IsItem (items_for events.now is_told)) }
{
    append_events(bytes, events)?;
    if is_told {
        bytes.push(TOLD_KIND)?;
    }
    Ok(())
}

fn append_events(bytes: &mut Vec<u8>, events: &Journal) -> Result<(), Memory>
    ensures written { OnOk result (bytes.new.items ≡ bytes.old.items ++ flat_map event_bytes events.now) }
    ensures are_events { OnOk result (AllByRecursion IsEvent events.now) }
{
    let mut near = 0;
    for place in 0..events.len() {
        append_event(bytes, events.event(place, &mut near))?;
    }
    Ok(())
}
