// What the image gives: tables written in any cut into rows come back from any cut, and accepted bytes are the image of the
// tables that they gave. Theorems, no code.
#![tactic(auto)]
