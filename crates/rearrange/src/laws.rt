// Coordinates rearranged for the archive (L11): where the bytes of the planes stand, what the checks leave of the lengths, and that archiving
// and restoring undo each other. No code.
