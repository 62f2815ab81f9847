// What the bench program writes, as theorems above its code: there is no code here. A set is judged by its first 580 bytes, and the
// lines of records are the occurrences.
#![tactic(auto)]
