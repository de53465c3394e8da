// What the calls on lent bytes promise, and the laws by which they keep it. No code.
#![tactic(auto)]
