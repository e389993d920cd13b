#![tactic(auto)]

// The definitions of the rules run on small herds: worked calls, refusals, images and searches. No function.
