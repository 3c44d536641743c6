// What scratch and room are filled with before a call.

// Bytes 1, 2, 3 to 251, and again from 1.
pub fn fill_bytes(bytes: &mut [u8]) {
    for (i, byte) in bytes.iter_mut().enumerate() {
        *byte = (i % 251 + 1) as u8;
    }
}

// Words 70,001, 70,002 and so on: no day and no code has such a number.
pub fn fill_words(words: &mut [u32]) {
    for (i, word) in words.iter_mut().enumerate() {
        *word = (i % 1000 + 70001) as u32;
    }
}
