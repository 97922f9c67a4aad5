// What the plan and the state of a run stand for, and what an instant makes of them: definitions and laws, no code.
#![tactic(auto)]
