// What the controller keeps of one bucket: its chain, who has not answered, and whether its handover is put off.
#![tactic(auto)]

pub mod kept;
