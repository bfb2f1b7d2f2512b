// The walk of a prefix table (document 01, 'Terms and node tables'), for whoever has a table: two words a node, a node and then its arguments.
// A subterm is handed on as the part of the table that starts at its node, and never copied.
// Kept (point 5): that a part begins with a whole term is a clause of each function here, and no type `Part`: README and the docs name these functions,
// so a type narrower than a slice would ask more of their callers; and 01's lines that hand on `&part[top..]` would become calls.
#![tactic(auto)]

pub mod node; // the words of a node
pub mod walk; // the walk of a term, node by node
pub mod accept; // the table check: 2, 1, 3, and a subject's 4
pub mod pass; // passing over a subterm: NEXT
pub mod forbid; // free variables that are forbidden: CHECK, and the closed sides of a rule
pub mod compare; // two subterms under a renaming: EQI, EQIMM
pub mod side; // what the compiler asks of a side's metavariables
