// What the build part of a run makes, as a tree of its instructions: definitions and laws only.
#![tactic(auto)]
