// Wrong engines written down, and that each parts from the engine: see specs/.
#![tactic(auto)]
