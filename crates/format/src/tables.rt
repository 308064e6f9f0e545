// The tables whose bodies are lists of entries, by their table ids.
#![tactic(auto)]

ghost use Rattle.std.specs.Prelude.{◌≡◌};
ghost use Rattle.format.specs.Lists.{list_id, Named, least_bits};

// The lists: those under the ids 0, 1, 3 and 4.
#[derive(Clone, Copy)]
pub enum ListTable {
    PositionV2,
    CellFragment,
    BeamhoppingTimePlan,
    PositionV3,
}

impl ListTable {
    // The list of a table id; none where a body under it is no list.
    pub fn of(table_id: u8) -> Option<ListTable>
        ensures { Named table_id result }
    {
        match table_id {
            0 => Some(ListTable::PositionV2),
            1 => Some(ListTable::CellFragment),
            3 => Some(ListTable::BeamhoppingTimePlan),
            4 => Some(ListTable::PositionV3),
            _ => None,
        }
    }

    // The bits that must remain for there to be an entry.
    pub fn least_bits(self) -> usize
        ensures { result ≡ least_bits (list_id self) }
    {
        match self {
            ListTable::PositionV2 | ListTable::PositionV3 => 32,
            ListTable::CellFragment => 34,
            ListTable::BeamhoppingTimePlan => 48,
        }
    }
}
