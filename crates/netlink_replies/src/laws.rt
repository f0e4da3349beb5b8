//! Laws about the definitions alone. Calling a law does nothing at run time: its contract is the
//! theorem.

ghost use Rattle.std.specs.Prelude.{◌≡◌, ◌++◌, ◌∷◌, ◌||◌, ℕ, List, drop, true, false};
ghost use Rattle.std.specs.List.{cons_option, filter, filter_map, list_any};
ghost use Rattle.netlink_replies.specs.Answers.{after_all, answers_in, belongs, has_ended, is_interrupted, request_in, waiting};
ghost use Rattle.netlink_replies.specs.Bodies.{request_of, request_size};
ghost use Rattle.netlink_replies.specs.Endings.{answer_of, has_interruption, is_end, is_own, open_item};
ghost use Rattle.netlink_replies.specs.Groups.{HoldGroups, ReadsAllAs, joined};
ghost use Rattle.netlink_replies.specs.Meaning.{Item, other};
ghost use Rattle.netlink_replies.specs.declared.replies.Replies.{Replies};
ghost use Rattle.netlink_replies.specs.declared.request.Request.{Request};

/// States that it does not matter which datagram holds a frame: reading undamaged datagrams gives
/// the items and the state of their frames, so the same frames in other datagrams give the same.
pub fn grouping()
    ensures frames { (s : Replies) (datagrams : List (List ℕ)) (groups : List (List (List ℕ)))
        (items : List Item) (last : Replies) → HoldGroups datagrams groups
        → ReadsAllAs s datagrams items last
        → (items ≡ answers_in s (joined groups)) × (last ≡ after_all s (joined groups)) }
    ensures alike { (s : Replies) (a b : List (List ℕ)) (f g : List (List (List ℕ)))
        (items others : List Item) (last end : Replies) → HoldGroups a f → HoldGroups b g
        → joined f ≡ joined g → ReadsAllAs s a items last → ReadsAllAs s b others end
        → (items ≡ others) × (last ≡ end) }
{}

/// States that an open answer ends if and only if a frame is an end. Each frame before the end, and
/// the end itself, gives its item, noops excepted, in order; each frame after the end gives
/// `Other`, noops excepted, and changes nothing.
pub fn end_once()
    ensures end { (s : Replies) (frames : List (List ℕ)) → has_ended s ≡ false
        → has_ended (after_all s frames) ≡ list_any (is_end (request_in s)) frames }
    ensures no_end { (s : Replies) (frames : List (List ℕ)) → has_ended s ≡ false
        → list_any (is_end (request_in s)) frames ≡ false
        → answers_in s frames ≡ filter_map (open_item (request_in s)) frames }
    ensures at { (s : Replies) (before : List (List ℕ)) (frame : List ℕ) (later : List (List ℕ))
        → has_ended s ≡ false → list_any (is_end (request_in s)) before ≡ false
        → is_end (request_in s) frame ≡ true
        → answers_in s (before ++ (frame ∷ later))
        ≡ filter_map (open_item (request_in s)) before
        ++ cons_option (open_item (request_in s) frame) (filter_map other later) }
    ensures later { (s : Replies) (frames : List (List ℕ)) → has_ended s ≡ true
        → (answers_in s frames ≡ filter_map other frames) × (after_all s frames ≡ s) }
{}

/// States that an answer is interrupted if and only if a frame of it up to its end has the flag
/// `NLM_F_DUMP_INTR`.
pub fn interruption()
    ensures flag { (r : Request) (frames : List (List ℕ))
        → is_interrupted (after_all (waiting r) frames)
        ≡ list_any has_interruption (answer_of r frames) }
{}

/// States that the request in an error message is a prefix of what follows the code, which is the
/// payload that `ErrorBuffer` gives.
pub fn returned_request()
    ensures prefix { (flags : ℕ) (bytes : List ℕ)
        → request_of flags (drop 4 bytes) ++ drop (request_size flags (drop 4 bytes)) (drop 4 bytes)
        ≡ drop 4 bytes }
{}

/// States that frames with other numbers do not matter: without them, the items are those that are
/// not such a frame, in the same order, and the state is the same.
pub fn isolation()
    ensures items { (s : Replies) (frames : List (List ℕ))
        → answers_in s (filter (belongs (request_in s)) frames)
        ≡ filter (is_own (request_in s)) (answers_in s frames) }
    ensures state { (s : Replies) (frames : List (List ℕ))
        → after_all s (filter (belongs (request_in s)) frames) ≡ after_all s frames }
{}
