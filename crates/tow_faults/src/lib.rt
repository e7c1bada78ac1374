//! How often a part of the outside has failed, by the number of a connection. Folders and logs show their faults to
//! contracts in this form. The definitions stand in specs/.
#![tactic(auto)]
