//! The laws of the fields and of hashes, as calls that do nothing: of each field, that what is spelled is read
//! again, whatever follows it, and that what is read is spelled so.
ghost use Rattle.std.specs.Prelude.{◌≡◌, ℕ, ◌<◌, ◌+◌, ◌*◌, ◌^◌, List, [], ◌∷◌, ◌++◌, length, All, Contains, ◌↔◌, ◌⊎◌};
ghost use Rattle.cm_base.specs.declared.record.Pid.{Pid};
ghost use Rattle.cm_bytes.specs.Fields.{Step, IsBytes, IsReadAgain, ReadsSpelled, byte_at, raw_at, u32_of, u32_at, text_of, text_at, list_of, list_at};
ghost use Rattle.cm_bytes.specs.Hashes.{hash_of, pid_text, HashesApart};

/// A byte is read again whatever follows it, and bytes that are read so begin with it.
pub fn byte_is_exact()
    ensures again { (b : ℕ) (rest : List ℕ) → byte_at (b ∷ rest) ≡ Some (b, rest) }
    ensures spelled { (bytes : List ℕ) (b : ℕ) (rest : List ℕ) → IsBytes bytes → byte_at bytes ≡ Some (b, rest)
        → (bytes ≡ b ∷ rest) × (b < 256) }
{}

/// So many bytes are read again as they are, and are refused only where fewer are left.
pub fn raw_is_exact()
    ensures again { (text rest : List ℕ) → raw_at (length text) (text ++ rest) ≡ Some (text, rest) }
    ensures spelled { (n : ℕ) (bytes text rest : List ℕ) → IsBytes bytes → raw_at n bytes ≡ Some (text, rest)
        → (bytes ≡ text ++ rest) × (length text ≡ n) }
    ensures short { (n : ℕ) (bytes : List ℕ) → (raw_at n bytes ≡ None) ↔ (length bytes < n) }
{}

/// A number has one spelling, of four bytes, which is read again; fewer bytes than four alone are refused.
pub fn u32_is_exact()
    ensures again { (n : ℕ) (rest : List ℕ) → n < 2 ^ 32 → u32_at (u32_of n ++ rest) ≡ Some (n, rest) }
    ensures spelled { (bytes : List ℕ) (n : ℕ) (rest : List ℕ) → IsBytes bytes → u32_at bytes ≡ Some (n, rest)
        → (bytes ≡ u32_of n ++ rest) × (n < 2 ^ 32) }
    ensures short { (bytes : List ℕ) → (u32_at bytes ≡ None) ↔ (length bytes < 4) }
    ensures size { (n : ℕ) → length (u32_of n) ≡ 4 }
    ensures bytes { (n : ℕ) → IsBytes (u32_of n) }
{}

/// A text below 2^32 bytes has one spelling, which is read again; it is refused only where it is cut.
pub fn text_is_exact()
    ensures again { (text rest : List ℕ) → length text < 2 ^ 32 → text_at (text_of text ++ rest) ≡ Some (text, rest) }
    ensures spelled { (bytes text rest : List ℕ) → IsBytes bytes → text_at bytes ≡ Some (text, rest)
        → (bytes ≡ text_of text ++ rest) × (length text < 2 ^ 32) }
    ensures short { (bytes : List ℕ) → (text_at bytes ≡ None) ↔ ((length bytes < 4) ⊎
        ((n : ℕ) × (rest : List ℕ) × (u32_at bytes ≡ Some (n, rest)) × (length rest < n))) }
    ensures size { (text : List ℕ) → length (text_of text) ≡ 4 + length text }
    ensures bytes { (text : List ℕ) → IsBytes text → IsBytes (text_of text) }
{}

/// A list below 2^32 items has one spelling, which is read again, where each of its items has one.
pub fn list_is_exact<T>()
    ensures again { (item_of : T → List ℕ) (item_at : Step T) (xs : List T) (rest : List ℕ)
        → All (IsReadAgain item_of item_at) xs → length xs < 2 ^ 32
        → list_at item_at (list_of item_of xs ++ rest) ≡ Some (xs, rest) }
    ensures spelled { (item_of : T → List ℕ) (item_at : Step T) → ReadsSpelled item_of item_at (λ x. Unit {0})
        → (bytes : List ℕ) (xs : List T) (rest : List ℕ) → IsBytes bytes → list_at item_at bytes ≡ Some (xs, rest)
        → (bytes ≡ list_of item_of xs ++ rest) × (length xs < 2 ^ 32) }
{}

/// No spelling that is read again is a front of another, and no two values have one spelling.
pub fn no_front_is_whole<T>()
    ensures { (item_of : T → List ℕ) (item_at : Step T) (a b : T) (more : List ℕ)
        → IsReadAgain item_of item_at a → IsReadAgain item_of item_at b
        → item_of a ++ more ≡ item_of b → (a ≡ b) × (more ≡ []) }
{}

/// The name of a hash says which hash it is.
pub fn names_are_apart()
    ensures apart { (a b : Pid) → IsBytes a.bytes → IsBytes b.bytes → pid_text a ≡ pid_text b → a ≡ b }
    ensures hashes { (a b : List ℕ) → pid_text (hash_of a) ≡ pid_text (hash_of b) → hash_of a ≡ hash_of b }
    ensures size { (bytes : List ℕ) → length (pid_text (hash_of bytes)) ≡ 64 }
{}

/// Texts whose hashes are apart are so in each part of their list.
pub fn part_is_apart()
    ensures { (part whole : List (List ℕ)) → ((text : List ℕ) → Contains part text → Contains whole text)
        → HashesApart whole → HashesApart part }
{}
