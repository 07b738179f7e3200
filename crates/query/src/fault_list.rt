// A list of fault records that is lent.
ghost use Rattle.definitions.specs.Answer.{fault_record};
ghost use Rattle.findings.specs.Value.{node_fault_of};

use definitions::FaultRecord;
use findings::Found;

// Fault records in a lent list, and how many there are: also those that the list does not reach.
// Stays (C interface): its count goes past the records: C lends the list, and is told of all faults, also of those past its end.
#[derive(Drop)]
pub struct FaultList<'a> {
    pub records: &'a mut [FaultRecord],
    pub count: usize,
}

impl FaultList<'_> {
    ghost use Rattle.query.specs.Faults.{Pushed};

    // The record of a node's fault behind the others, as far as the list reaches.
    pub fn push(&mut self, node: u32, found: Found)
        ensures { Pushed (fault_record node (node_fault_of found)) self.old self.new }
    {
        let record = FaultRecord {
            node,
            fault: findings::fault_number(found.fault),
            equation: found.equation,
        };
        clock_tables::put_at(self.records, self.count, record);
        self.count = self.count.saturating_add(1);
    }
}
