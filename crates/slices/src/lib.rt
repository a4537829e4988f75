// What document 01's procedure of one event means: laws of combinations, slices, made combinations, hopeful states and the
// lent tables, and from them the customer's demand 3; and what the session check (refusal 12) says of any session that passes
// it, which a step keeps (`step-sound`). It has no code; specs/Lib.antt lists the laws, `demand_3` is the last.

#![tactic(auto)]
