// A handover that is wanted is in progress, or it waits for room, and begins by itself when there is some.
ghost use Rattle.controller.specs.Settled.{FirstSettled, ToldSettled, HeardSettled, AddedSettled, RemovedSettled, TickedSettled, SettledSteady};

// That it is so at the start, that every step keeps it, and that then nothing is left to begin.
pub fn settled()
    ensures first { FirstSettled }
    ensures told { ToldSettled }
    ensures heard { HeardSettled }
    ensures added { AddedSettled }
    ensures removed { RemovedSettled }
    ensures ticked { TickedSettled }
    ensures steady { SettledSteady }
{}
