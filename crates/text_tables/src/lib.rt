// What a training text holds, as tables: the trainers' own, and the names and scales beside them. Definitions and laws; the reader
// fills them, the writer reads them.
#![tactic(auto)]
