#![tactic(auto)]
// A mesh and its mirror have the same links and the same verdicts, and mirrored control points: paper/specs/Mirror.antt states it. There is no code.
