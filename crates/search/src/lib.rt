// What a search over numbers answers: the lowest that was looked for, or nothing.
#![tactic(auto)]
