// Laws alone: a part of a description in front of others, as a reader's proof passes over it.
#![tactic(auto)]
