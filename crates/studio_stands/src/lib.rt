// Where the chunks of a layout stand in a file. What finds and lists chunks rests on these laws: there is no function.
#![tactic(auto)]
