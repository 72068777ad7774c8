// The round trip: what is written of a manifest is well-formed, and reads as the same manifest. Laws alone: no function stands here.
#![tactic(auto)]
