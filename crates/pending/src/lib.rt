// A reader before the ring, and what the unread records will give it. There is no code here.
#![tactic(auto)]
