#![tactic(auto)]

// Texts: the parts between separators, numerals, tags and measures. No function.
