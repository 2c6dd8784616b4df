// What the reading of a wave sheet means. There is no code here.
// Round: the text of a good sheet is read as that sheet. Only: a text that is read as a sheet is the text of that sheet, and the sheet is good.
// Back and Canonical: the same two of one number. Places: a fault lies within the text, and is told as 15. FaultFirst: its place is the one that
// specs/First tells in words of texts alone, without a reader; Tokens and Stops lead there. Examples: 01's sheet, and a text for each way to be
// at fault.
#![tactic(auto)]
