// The hand-worked cases: both sides of each edge, and those that tell misreadings apart, as one table of rows each. Definitions only.

#![tactic(auto)]
