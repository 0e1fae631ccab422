// A conic's quads, and its halves on the way to them, as three points in an array each. The room has definitions and laws, and no functions.
#![tactic(auto)]
