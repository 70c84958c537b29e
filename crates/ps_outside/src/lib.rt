//! What is seen of the outside, moment by moment: one bundle of meanings for a device, a volume and a store of objects.
#![tactic(auto)]
