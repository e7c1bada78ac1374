//! What a pattern of a handlers text is, and what it finds. The definitions stand in specs/.
#![tactic(auto)]
